// The `60` line to a checked table: what is refused, and the line of its saved form at a place.
#![tactic(auto)]

ghost use Rattle.std.specs.Prelude.{◌≡◌};
ghost use Rattle.table_rules.specs.Checked.{Checked};
ghost use Rattle.refusal_number.specs.Numbers.{numbered};
ghost use Rattle.form_save.specs.Saving.{saved_on};

use refusal_number::Refusal;

// "saving 14, 1, 10", behind 14: the table is only looked at, and the line of the form at a place goes into the lent space; or the form has no line there.
pub fn save_checked(
    space: &[u32],
    line: &[u8],
    k: usize,
    out: &mut [u8],
) -> Result<Option<usize>, Refusal>
    requires { Checked space.now }
    ensures { (numbered result, out.new) ≡ saved_on line.now space.now k out.old }
{
    if !line_decode::printing(line) {
        return Err(Refusal::Misshapen);
    }
    match form_write::write_line(space, k, out) {
        Ok(there) => Ok(there),
        Err(_) => Err(Refusal::NoRoom),
    }
}
