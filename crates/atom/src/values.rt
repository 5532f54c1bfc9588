// Worked values of both kinds, checked over the definitions.
ghost use Rattle.atom.specs.Axes.{AxisValues};
ghost use Rattle.atom.specs.Counts.{CountValues};

pub fn count_values()
    ensures answer { CountValues }
{}

pub fn axis_values()
    ensures answer { AxisValues }
{}
