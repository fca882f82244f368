//! The full faces of a grading.
ghost use Rattle.std.specs.Prelude.{◌≡◌, ◌≤◌, ◌^◌, IfOk, length};
ghost use Rattle.git_faces.specs.FullFaces.{AreFullFaces};

use git_base::NoMemory;
use git_grading::Grading;
use std::alloc::Global;

/// The number of all faces.
fn face_count(g: &Grading) -> u32
    ensures value { result ≡ 2 ^ length g.now.columns }
    ensures few { result ≤ 65536 }
{
    1 << g.r()
}

/// The masks of all full faces, descending. A face is full where as many of its columns are independent
/// as there are rows; bit `i` of its mask stands for column `i`.
pub fn full_faces(alloc: Global, g: &Grading) -> Result<Vec<u16>, NoMemory>
    ensures { IfOk result (λ v. AreFullFaces g.now.k g.now.columns v.items) }
{
    let count = face_count(g);
    let mut out = Vec::new(alloc);
    for i in 0..count {
        let mask = (count - 1 - i) as u16;
        if g.full(mask) {
            out.push(mask)?;
        }
    }
    Ok(out)
}
