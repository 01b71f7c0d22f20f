//! What holds of marks and verdicts by themselves.
ghost use Rattle.gate.specs.Exact.{PassesMeet};
ghost use Rattle.gate.specs.Laws.{BitByBit, RoomAside};

/// The laws of the gate. The call does nothing: its contract is the theorem.
#[tactic(auto, using(crate::proofs::Bits::bit_at_lem, crate::proofs::Judging::room_aside, crate::proofs::Exactly::passes_meet))]
pub fn gate_stands()
    ensures bits { BitByBit }
    ensures room { RoomAside }
    ensures policy { PassesMeet }
{}
