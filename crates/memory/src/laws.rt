//! What holds of reads, puts, writes and copies, whatever keeps the memory.
ghost use Rattle.memory.specs.Laws.{LongIsFour, ReadAfterPut, LongAfterPut, SizeStays, PagesStay, TouchedHeld, PagesKept, HeldGranted, RefusedSame, PutsCommute, PutValid};
ghost use Rattle.memory.specs.Laws.{ReadAfterWrite, WriteInside, WriteHolds, WriteSize, WritePagesStay, WritePagesKept, WriteValid, WrittenBefore};
ghost use Rattle.memory.specs.Laws.{CopyAnswer, CopyExact, CopyEach, CopyAfterWrite};

/// The laws of reads and puts. The call does nothing: its contract is the theorem.
pub fn memory_stands()
    ensures four { LongIsFour }
    ensures read { ReadAfterPut }
    ensures long { LongAfterPut }
    ensures size { SizeStays }
    ensures pages { PagesStay }
    ensures touched { TouchedHeld }
    ensures kept { PagesKept }
    ensures held { HeldGranted }
    ensures refused { RefusedSame }
    ensures commute { PutsCommute }
    ensures valid { PutValid }
{}

/// The laws of writes and copies of a range, in the same way.
pub fn ranges_stand()
    ensures read { ReadAfterWrite }
    ensures inside { WriteInside }
    ensures touched { WriteHolds }
    ensures size { WriteSize }
    ensures pages { WritePagesStay }
    ensures kept { WritePagesKept }
    ensures valid { WriteValid }
    ensures before { WrittenBefore }
    ensures answer { CopyAnswer }
    ensures exact { CopyExact }
    ensures each { CopyEach }
    ensures copied { CopyAfterWrite }
{}
