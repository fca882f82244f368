//! The frontier.
ghost use Rattle.std.specs.Prelude.{◌≡◌, ◌<◌, ◌^◌};
ghost use Rattle.git_visits.specs.Visits.{word_count, records};

use atomic_table::Table;
use git_machine::Successors;
use git_visits::{Key, Post, Visits};
use std::alloc::Global;

#[derive(Drop)]
pub struct Visited<G: Successors> {
    pub table: Table<(), Post<G>, Key<G>, Visits<G>, Global>,
    pub records: usize,
    pub width: usize,
    pub hashes: usize,
    pub states: usize,
    ghost words: { table.shared.table_id.words ≡ word_count table.shared.key },
    ghost few: { table.shared.table_id.words < 2 ^ 40 },
    ghost records_is: { records ≡ Rattle.git_visits.specs.Visits.records table.shared.key },
    ghost width_is: { width ≡ table.shared.key.width },
    ghost hashes_is: { hashes ≡ table.shared.key.hashes },
    ghost states_is: { states ≡ Rattle.git_visits.specs.Visits.states_at table.shared.key },
    ghost room: { records < hashes },
    ghost slotless: { table.shared.table_id.slots ≡ 0 },
    ghost small: { hashes < 2 ^ 20 },
}
