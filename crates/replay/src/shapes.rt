// The lines of a shape.
use crate::words::{Dash, Flag, Link, Node, Pad, Placement};
use render::{Cell, RowShape};
use std::fmt;
use std::fmt::{Display, Formatter};

// The six lines of a shape. One that is too wide shows as many cells as there are.
#[derive(Clone, Copy)]
pub(crate) struct Shape<'a>(pub(crate) &'a RowShape);

// The parent columns.
#[derive(Clone, Copy)]
struct Parents<'a>(&'a RowShape);

impl Display for Parents<'_> {
    fn fmt<W: fmt::Write>(&self, f: &mut Formatter<W>) -> fmt::Result {
        let shape = self.0;
        let columns = shape
            .cells
            .iter()
            .take(shape.width)
            .enumerate()
            .filter(|(_, cell)| cell.parent)
            .map(|(column, _)| column);
        f.write_joined(columns, ",")
    }
}

impl Shape<'_> {
    // What stands in front of the cells.
    fn fmt_head<W: fmt::Write>(&self, f: &mut Formatter<W>) -> fmt::Result {
        let shape = self.0;
        let style = shape.style;
        write!(f, "shape node={} merge={}", shape.node, Flag(shape.merge))?;
        write!(f, " separator={}", Flag(shape.separator_line))?;
        write!(f, " dash={}", Dash(style.dash_style))?;
        write!(f, " placement={}", Placement(style.link_line_placement))?;
        write!(
            f,
            " head={} root={}",
            Flag(shape.is_head),
            Flag(shape.is_root)
        )?;
        write!(f, " column={} width={}", shape.node_column, shape.width)?;
        writeln!(f, " parents={}", Parents(shape))
    }

    // A line of cells behind its name, each as it is shown there.
    fn fmt_line<W: fmt::Write, T: Display + Drop, F: Fn(Cell) -> T>(
        &self,
        f: &mut Formatter<W>,
        name: &str,
        is_present: bool,
        shown: F,
    ) -> fmt::Result
        requires { F.IsAlwaysCallable shown }
    {
        if !is_present {
            return writeln!(f, "{name} absent");
        }
        write!(f, "{name} ")?;
        f.write_joined(
            self.0
                .cells
                .iter()
                .take(self.0.width)
                .map(|cell| shown(*cell)),
            ",",
        )?;
        writeln!(f)
    }
}

impl Display for Shape<'_> {
    fn fmt<W: fmt::Write>(&self, f: &mut Formatter<W>) -> fmt::Result {
        let shape = self.0;
        self.fmt_head(f)?;
        self.fmt_line(f, "node", true, |cell| Node(cell.node))?;
        self.fmt_line(f, "link", shape.link_line, |cell| Link(cell.link))?;
        self.fmt_line(f, "from", shape.link_line, |cell| Link(cell.link_from_node))?;
        self.fmt_line(f, "term", shape.term_line, |cell| Flag(cell.term))?;
        self.fmt_line(f, "ancestry", true, |cell| Pad(cell.ancestry))
    }
}
