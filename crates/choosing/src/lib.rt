//! Choosing: the top entry among the candidates of a parcel's row.
#![tactic(auto)]

ghost use Rattle.std.specs.Prelude.{◌≡◌, ℕ, ◌<◌, Bool, true, length, IfSome, MatchOption};
ghost use Rattle.std.specs.List.{slice_get};
ghost use Rattle.ranking.specs.Law.{lifted};
ghost use Rattle.sheet.specs.Held.{held};
ghost use Rattle.choosing.specs.Top.{Choice};

use ranking::Ranking;
use sheet::Sheet;

/// Entries of a sheet that may be chosen.
///
/// It is a trait, since a closure would bring a condition on when it may be called, and this may be asked of any place.
pub trait Candidates {
    ghost stands: { Self → ℕ → Bool };

    /// Whether the entry at this place may be chosen.
    fn stands_at(&self, place: usize) -> bool
        ensures { result ≡ stands self.now place };
}

// Whether the key at `p` is at least as high as the key at `top`, if there is one.
#[tactic(auto, using(std::proofs::lemmas::Option::slice_get_read))]
fn no_lower<K: Ranking>(keys: &[K], p: usize, top: Option<usize>) -> bool
    requires { (p < length keys.now) × (IfSome top (λ q. q < length keys.now)) }
    ensures { MatchOption top (result ≡ true) (λ q. result ≡ lifted K.Ranking.atleast (slice_get keys.now p) (slice_get keys.now q)) }
{
    top.is_none_or(|q| keys[p].at_least(keys[q]))
}

/// The candidate of the parcel's row that stands above the row's other candidates, by its place among the entries:
/// the one with the highest key, and of those that rank alike the last.
///
/// There is none where the row has no candidate, or the sheet no such parcel.
pub fn top_entry<K: Ranking, C: Candidates>(
    sheet: &Sheet<K>,
    parcel: usize,
    candidates: &C,
) -> Option<usize>
    ensures { Choice K.Ranking.atleast (held sheet.now) (C.Candidates.stands candidates.now) parcel result }
{
    let keys = sheet.tables().keys;
    let mut top = None;
    // a loop: the closures of `filter` with `fold` or `reduce` may be given any place, and then `keys` has no proof
    for p in sheet.row(parcel) {
        if candidates.stands_at(p) && no_lower(keys, p, top) {
            top = Some(p);
        }
    }
    top
}
