ghost use Rattle.std.specs.Prelude.{◌≡◌, [], ◌∷◌, ◌++◌, codes, Ok};
ghost use Rattle.gtfs_tables.specs.Table.{table_of};

/// The table of a file with a header and one record.
#[tactic(auto, unfolding(csv::specs::Reading::strip_bom, csv::specs::Reading::records_from, csv::specs::Machine::next_record))]
pub fn a_table()
    ensures { table_of (codes "from,to,minutes" ++ 10 ∷ (codes "B,C,20" ++ 10 ∷ []))
        ≡ Ok (record {
          header = codes "from" ∷ codes "to" ∷ codes "minutes" ∷ [];
          rows = (codes "B" ∷ codes "C" ∷ codes "20" ∷ []) ∷ [];
        }) }
{}
