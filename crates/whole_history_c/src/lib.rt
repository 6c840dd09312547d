// The calls of the crate `whole_history`, exported for bench, which is compiled with a C linkage.
#![tactic(auto)]

ghost use Rattle.std.specs.Prelude.{◌≡◌};
ghost use Rattle.whole_history.specs.Whole.{whole_text, whole_shapes, whole_previews, whole_lines};

// The text call on each record of a history.
#[unsafe(no_mangle)]
pub extern "C" fn whole_history_text(
    records: &[u8],
    message: &[u8],
    renderer: u8,
    kept: bool,
    out: &mut [u8],
) -> usize
    ensures { whole_text records.now message.now renderer kept out.old ≡ record { rows = result; output = out.new } }
{
    whole_history::whole_history_text(records, message, renderer, kept, out)
}

// The row call on each record of a history.
#[unsafe(no_mangle)]
pub extern "C" fn whole_history_shapes(records: &[u8], kept: bool, out: &mut [u8]) -> usize
    ensures { whole_shapes records.now kept out.old ≡ record { rows = result; output = out.new } }
{
    whole_history::whole_history_shapes(records, kept, out)
}

// The preview of each record of a history.
#[unsafe(no_mangle)]
pub extern "C" fn whole_history_previews(records: &[u8], kept: bool, out: &mut [u8]) -> usize
    ensures { whole_previews records.now kept out.old ≡ record { rows = result; output = out.new } }
{
    whole_history::whole_history_previews(records, kept, out)
}

// The row call and the renderer call on each record of a history.
#[unsafe(no_mangle)]
pub extern "C" fn whole_history_lines(
    records: &[u8],
    renderer: u8,
    kept: bool,
    out: &mut [u8],
) -> usize
    ensures { whole_lines records.now renderer kept out.old ≡ record { rows = result; output = out.new } }
{
    whole_history::whole_history_lines(records, renderer, kept, out)
}

// The row call on a lent shaper and a lent list of entries on each record of a history.
#[unsafe(no_mangle)]
pub extern "C" fn whole_history_lent_shapes(records: &[u8], kept: bool, out: &mut [u8]) -> usize
    ensures { whole_shapes records.now kept out.old ≡ record { rows = result; output = out.new } }
{
    whole_history::whole_history_lent_shapes(records, kept, out)
}
