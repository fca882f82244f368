//! Lists of vectors as sets, and how many they may be.
ghost use Rattle.std.specs.Prelude.{◌≡◌, ◌↔◌, ◌<◌, ◌≤◌, ◌++◌, Contains, IfOk, IfErr, IsTrue, map};
ghost use Rattle.git_allcones.specs.Faces.{IsAllFault, lists_size};
ghost use Rattle.git_allcones.specs.Sets.{IsListSet, SameLists, vectors_of};

use git_ints::IVec;

/// The most faces and rays of faces, counted together.
pub const FACES: usize = 1 << 20;

/// Why there is no list of all faces.
#[derive(Clone, Copy, Debug, PartialEq, Eq)]
pub enum AllFault {
    /// The faces and the rays in them are more than `FACES`.
    TooMany,
    /// Memory ran out.
    NoMemory,
}

/// The same lists in order, each once.
pub fn list_set(lists: Vec<Vec<IVec>>) -> Vec<Vec<IVec>>
    ensures { IsListSet (map vectors_of lists.items) (map vectors_of result.items) }
{
    let mut all = lists;
    all.sort_unstable();
    all.dedup();
    all
}

/// Whether the lists and their vectors are together more than a limit.
pub fn are_more(lists: &[Vec<IVec>], limit: usize) -> bool
    ensures { IsTrue result ↔ (limit < lists_size (map vectors_of lists.now)) }
{
    let mut left = limit;
    for list in lists {
        if list.len() >= left {
            return true;
        }
        left -= list.len() + 1;
    }
    false
}

/// The same lists in order, each once, where they are not too many.
pub fn few_lists(lists: Vec<Vec<IVec>>) -> Result<Vec<Vec<IVec>>, AllFault>
    ensures set { IfOk result (λ v. IsListSet (map vectors_of lists.items) (map vectors_of v.items)) }
    ensures few { IfOk result (λ v. lists_size (map vectors_of v.items) ≤ FACES) }
    ensures fault { IfErr result (λ f. IsAllFault (Contains (map vectors_of lists.items)) f) }
{
    let set = list_set(lists);
    if are_more(&set, FACES) {
        return Err(AllFault::TooMany);
    }
    Ok(set)
}

/// Some lists more; once they are twice too many, each is kept once.
pub fn gathered(lists: Vec<Vec<IVec>>, more: Vec<Vec<IVec>>) -> Result<Vec<Vec<IVec>>, AllFault>
    ensures same { IfOk result (λ v. SameLists (map vectors_of v.items) (map vectors_of lists.items ++ map vectors_of more.items)) }
    ensures fault { IfErr result (λ f. IsAllFault (Contains (map vectors_of lists.items ++ map vectors_of more.items)) f) }
{
    let mut all = lists;
    let mut others = more;
    if all.append(&mut others).is_err() {
        return Err(AllFault::NoMemory);
    }
    if are_more(&all, 2 * FACES) {
        return few_lists(all);
    }
    Ok(all)
}
