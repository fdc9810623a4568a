ghost use Rattle.gtfs_tables.specs.Laws as spec;

/// Records that are written read back as the same records, unless the text begins with a byte-order mark.
pub fn read_back_law()
    ensures { spec.ReadsBack }
{}

/// A record of fields that are UTF-8 is written in UTF-8.
pub fn written_text_law()
    ensures { spec.StaysText }
{}

/// A minute up to 99:59 that is printed reads as the same minute.
pub fn minute_law()
    ensures { spec.MinuteReadsBack }
{}
