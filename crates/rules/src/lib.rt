// The rules of document 01 are the definitions in specs/; what runs here is the constant table of faults, held to the definitions' table.

#![tactic(auto)]

ghost use Rattle.std.specs.Prelude.{◌≡◌, get_or};
ghost use Rattle.rules.specs.Faults.{masks};

use records::Schedule;

// What a step allows, as a mask; a number that is no step's allows nothing.
pub fn allowed_at(step: u32) -> u8
    ensures { result ≡ get_or masks step 0 }
{
    Schedule::ALLOWED.get(step as usize).copied().unwrap_or(0)
}
