//! The frontier at the start.
ghost use Rattle.std.specs.Prelude.{◌≡◌, ◌+◌, ◌*◌, ◌<◌, ◌≤◌, ◌^◌, ℕ, true, [], length, slice_index, if◌then◌else◌, nat_eq, IfOk};
ghost use Rattle.git_visits.specs.Visits.{home_of, opening_view};
ghost use Rattle.git_table.specs.Views.{IsKey};
ghost use Rattle.git_visits.specs.Opening.{Opens, Front};
ghost use Rattle.git_visits.specs.declared.view.Post.TheVariants.{Held};

use crate::steps::TableSeat;
use crate::visited::Visited;
use atomic_table::Table;
use git_base::NoMemory;
use git_limits::{SIGNATURES, WORDS, WORKERS};
use git_machine::{Sig, Successors};
use git_visits::Key;
use std::alloc::Global;
use std::snapshot::Snapshot;

/// Where the probes for a signature begin.
pub fn home(sig: &Sig, hashes: usize) -> usize
    requires { (0 < hashes) × (hashes < 2 ^ 32) }
    ensures { result ≡ home_of hashes sig.now }
{
    let mut sum = 0u64;
    for i in 0..sig.width() {
        sum = ((sum as u128 * 31 + sig.word(i) as u128) % (1 << 32)) as u64;
    }
    sum as usize % hashes
}

// The words in front of the state words.
fn front_words(
    alloc: Global,
    first: &Sig,
    records: usize,
    width: usize,
    hashes: usize,
) -> Result<Vec<u64>, NoMemory>
    requires { (length first.now ≡ width) × (0 < records) × (records < hashes) × (hashes < 2 ^ 20) × (records * width ≤ WORDS) }
    ensures { IfOk result (λ v. (length v.items ≡ 1 + hashes + records * width) × Front v.items first.now records width hashes) }
{
    let mut words = Vec::with_capacity(alloc, 1 + hashes + records * width + records + 2)?;
    words.push(1)?;
    let at = home(first, hashes);
    for h in 0..hashes {
        words.push(if h == at { 1 } else { 0 })?;
    }
    for j in 0..width {
        words.push(first.word(j))?;
    }
    for _k in 0..(records - 1) * width {
        words.push(0)?;
    }
    Ok(words)
}

fn opening_words(
    alloc: Global,
    first: &Sig,
    records: usize,
    width: usize,
    hashes: usize,
) -> Result<Vec<u64>, NoMemory>
    requires { (length first.now ≡ width) × (0 < records) × (records < hashes) × (hashes < 2 ^ 20) × (records * width ≤ WORDS) }
    ensures { IfOk result (λ v. Opens v.items first.now records width hashes) }
{
    let mut words = front_words(alloc, first, records, width, hashes)?;
    words.push(1)?;
    for _r in 0..records - 1 {
        words.push(0)?;
    }
    words.push(1)?;
    words.push(0)?;
    Ok(words)
}

impl<G: Successors> Visited<G> {
    pub fn new(
        alloc: Global,
        graph: &G,
        cap: u32,
        workers: u32,
        first: &Sig,
    ) -> Result<(Visited<G>, TableSeat<G>), NoMemory>
        requires legal { G.legal graph.now first.now }
        requires sizes { (0 < cap) × (cap ≤ SIGNATURES) × (0 < workers) × (workers ≤ WORKERS) × ((cap + workers) * length first.now ≤ WORDS) }
        ensures own { IfOk result (λ f. (f.1.table_id ≡ f.0.table.shared.table_id) × (f.1.me.1 ≡ [])) }
        ensures view { IfOk result (λ f. f.1.me.0 ≡ Held (opening_view f.0.table.shared.key)) }
        ensures fits { IfOk result (λ f. IsKey f.0.table.shared.key) }
        ensures key { IfOk result (λ f. (f.0.table.shared.key.graph.value ≡ graph.now) × (f.0.table.shared.key.first.value ≡ first.now) × (f.0.table.shared.key.cap ≡ cap) × (f.0.table.shared.key.workers ≡ workers) × (f.0.width ≡ length first.now)) }
    {
        let width = first.width();
        let records = cap as usize + workers as usize;
        let hashes = records + 1;
        let words = opening_words(alloc, first, records, width, hashes)?;
        let key = Key {
            graph: Snapshot::of(graph),
            first: Snapshot::of(first),
            cap: cap as u64,
            workers: workers as u64,
            width: width as u64,
            hashes: hashes as u64,
        };
        let (table, seat) = Table::of_words(alloc, words.as_slice(), &key)?;
        let frontier = Visited {
            table,
            records,
            width,
            hashes,
            states: 1 + hashes + records * width,
        };
        Ok((frontier, seat))
    }
}
