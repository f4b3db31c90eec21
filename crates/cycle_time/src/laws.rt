ghost use Rattle.std.specs.List.Sorted.{IsNonDecreasing};
ghost use Rattle.std.specs.Prelude.{ℕ, List};
ghost use Rattle.cycle_time.specs.Certificate.{IsCertificate, HasNoGreaterRatio, NoneVaries};
ghost use Rattle.cycle_time.specs.Dates.{NoneIsNegative, BoundsDates, HoldsBack};
ghost use Rattle.cycle_time.specs.declared.certificate.Certificate.{Certificate};
ghost use Rattle.event_graph.specs.Circuit.{IsCircuit};
ghost use Rattle.event_graph.specs.Network.{IsGraph};
ghost use Rattle.line_base.specs.declared.event.Parts.{Parts};

/// A law of the definitions: where a ratio has a certificate, no circuit has a greater one.
///
/// It runs nothing: its contract is the law. So what `accept` takes can be relied on, wherever it comes from.
pub fn certificates_bound_every_ratio()
    ensures { (g : Parts) (c : Certificate) →
        IsCertificate g c → HasNoGreaterRatio g c.time c.cards }
{}

/// A law of the definitions: where no time varies, no date of the least solution grows faster than the ratio of a
/// certificate whose potentials are at least 0.
///
/// It runs nothing: its contract is the law. Source of the rule: Baccelli, Cohen, Olsder and Quadrat, Synchronization
/// and Linearity, on the growth of daters.
pub fn potentials_bound_dates()
    ensures { (g : Parts) (c : Certificate) → IsGraph g → IsNonDecreasing g.dates → NoneVaries g → IsCertificate g c →
        NoneIsNegative g c → BoundsDates g c }
{}

/// A law of the definitions: where no time varies, the jobs at a station of a circuit follow each other no faster than
/// the circuit's time for its tokens.
///
/// It runs nothing: its contract is the law.
pub fn circuits_hold_back_dates()
    ensures { (g : Parts) (arcs : List ℕ) →
        IsGraph g → NoneVaries g → IsCircuit g arcs → HoldsBack g arcs }
{}
