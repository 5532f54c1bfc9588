// Worked values, checked over the definitions.
ghost use Rattle.machine.specs.Worked.{OpeningValues, PushValues};

pub fn worked_values()
    ensures openings { OpeningValues }
    ensures pushes { PushValues }
{}
