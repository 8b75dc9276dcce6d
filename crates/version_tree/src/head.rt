//! Branches and their heads.
ghost use Rattle.std.specs.Prelude.{◌≡◌, ◌≤◌, length};
ghost use Rattle.version_tree.specs.Versions.{main, none_on, last_on, head_of, IsHeadOf};

use crate::version::Version;
use value_types::Name;

/// The last version of a branch.
#[derive(Clone, Copy, Debug, PartialEq, Eq)]
pub enum Head {
    /// There is no such branch.
    NoBranch,
    /// The branch has no version yet.
    Empty,
    /// The number of its last version.
    Version(u32),
}

fn none_on(branch: &Name) -> Head
    ensures { result ≡ none_on branch.now }
{
    if branch.as_slice() == b"main".as_slice() {
        Head::Empty
    } else {
        Head::NoBranch
    }
}

/// The head of a branch.
pub fn head_of(versions: &[Version], branch: &Name) -> Head
    requires { length versions.now ≤ 256 }
    ensures head { result ≡ head_of versions.now branch.now }
    ensures within { IsHeadOf versions.now result }
{
    let mut head = none_on(branch);
    let mut number: u32 = 0;
    for version in versions {
        number += 1;
        if version.branch.same(branch) {
            head = Head::Version(number);
        }
    }
    head
}
