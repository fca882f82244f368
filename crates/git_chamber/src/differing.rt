//! The least number in which two signatures differ.
ghost use Rattle.std.specs.Prelude.{◌≡◌, ◌≤◌, length, IsNone, IfSome};
ghost use Rattle.git_chamber.specs.Chambers.{IsLeastDifference};

use git_machine::Sig;

/// The least number in which the sets differ.
pub fn difference(a: &Sig, b: &Sig) -> Option<u32>
    requires width { length a.now ≡ length b.now }
    requires few { length a.now ≤ 1024 }
    ensures none { IsNone result → a.now ≡ b.now }
    ensures some { IfSome result (λ n. IsLeastDifference a.now b.now n) }
{
    if a.same(b) {
        return None;
    }
    for n in 0..64 * a.width().min(b.width()) as u32 {
        if a.has(n) != b.has(n) {
            return Some(n);
        }
    }
    None
}
