ghost use Rattle.std.specs.Prelude.{List};
ghost use Rattle.press_hooks.specs.Numbered.{Edit, Agrees};

/// After the same edits, the ordered rows are the set of numbered rows by hook, priority and
/// number. Adds, removes and both kinds of has answer the same of either, and a run finds the same
/// next priority and the same entries there.
pub fn numbered_rows_agree()
    ensures { (edits : List Edit) → Agrees edits }
{}
