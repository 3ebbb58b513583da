// The owners of the m pages are guests.

ghost use Rattle.std.specs.Prelude.{◌≡◌, ltb};
ghost use Rattle.model.specs.Sound.{if_owned, owners_below};

use model::{PageRecord, VmId};

// The owner, if there is one, is among the n guests.
#[tactic(auto, unfolding(model::specs::Sound::if_owned))]
fn owner_below(n: u8, owner: Option<VmId>) -> bool
    ensures { result ≡ if_owned owner (λ g. ltb g.0 n) }
{
    owner.is_none_or(|g| g.0 < n)
}

// So for every page.
#[tactic(auto, unfolding(model::specs::Sound::owners_below, model::specs::State::record_at))]
pub fn owners_below(n: u8, m: u8, records: &[PageRecord; 64]) -> bool
    ensures { result ≡ owners_below n m records.now }
{
    records
        .iter()
        .take(m as usize)
        .all(|record| owner_below(n, record.owner))
}
