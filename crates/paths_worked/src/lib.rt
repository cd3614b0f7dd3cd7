// The worked site: what its patterns stand for and touch, proved from the definitions alone.
#![tactic(auto)]

ghost use Rattle.paths_worked.specs.Worked.{Worked};

pub fn worked_site_stands() -> u8
    ensures { Worked }
{
    0
}
