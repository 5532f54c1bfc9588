// What every refusal names, whichever layer it comes from.
#![tactic(auto)]

ghost use Rattle.fault.specs.declared.Report.{Report};
ghost use Rattle.std.specs.Prelude.{◌≡◌};

// The layer that refused.
#[derive(Clone, Copy, PartialEq, Eq, Debug)]
pub enum Layer {
    Store,
    Kind,
    Memory,
    Console,
}

// A refusal's number, its layer and the place it names: a register, a store place, a column, or 0 where it names nothing, which users are told too.
#[derive(Clone, Copy, PartialEq, Eq, Debug)]
pub struct Report {
    // a number, since users are told it; in code each refusal is a case of its layer's fault
    pub number: u32,
    pub layer: Layer,
    pub place: usize,
}

// A fault of any layer. Its ghost member is the table of its cases.
pub trait Refusal {
    ghost told: { Self → Report };

    fn report(self) -> Report
        ensures { result ≡ told self };
}
