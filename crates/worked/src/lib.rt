// Worked cases: values that the definitions must give, in one table.
#![tactic(auto)]

ghost use Rattle.std.specs.Prelude.{◌≡◌, true};
ghost use Rattle.worked.specs.Cases.{all_pass};
ghost use Rattle.worked.specs.Table.{cases};

// Proved if every case of the table comes out as it says.
pub fn cases_hold()
    ensures { all_pass cases ≡ true }
{}
