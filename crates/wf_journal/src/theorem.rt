//! Theorems about the bytes of records, whoever wrote them.

ghost use Rattle.wf_journal.specs.Records.{AreReadOneWay, IsReadAsNone};

use wf_canon::one_text_one_map;

/// Bytes are read as at most one list of records, and empty bytes as the empty list.
pub fn records_are_read_one_way()
    ensures one { AreReadOneWay }
    ensures none { IsReadAsNone }
{
    // Maps with equal texts are equal.
    one_text_one_map();
}
