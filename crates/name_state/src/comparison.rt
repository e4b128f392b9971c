// Whether two states are the same: the Rust's `==`. Bytes past the lengths are not compared.
ghost use Rattle.std.specs.Prelude.{◌≡◌, ◌&&◌};
ghost use Rattle.words.specs.Sameness.{same};
ghost use Rattle.name_state.specs.State.{same_state};
ghost use Rattle.name_state.specs.Paper.{text, state_of};

use crate::NameState;

// Two texts, each the first so many bytes of an array; no byte past the array is compared.
#[tactic(auto, using(crate::proofs::Sets::text_tests))]
fn same_text<const N: usize>(a: &[u8; N], n: usize, b: &[u8; N], m: usize) -> bool
    ensures { result ≡ same (text n a.now) (text m b.now) }
{
    let k = n.min(N);
    n == m && a[..k] == b[..k]
}

impl NameState {
    // Key, name and resource. Bytes past the lengths are not compared, so no derived `==` can stand here.
    #[tactic(auto, using(crate::proofs::Sets::field_tests))]
    fn same_texts(&self, other: &NameState) -> bool
        ensures { result ≡ (same (state_of self.now).key (state_of other.now).key && same (state_of self.now).name (state_of other.now).name && same (state_of self.now).resource (state_of other.now).resource) }
    {
        self.name_hash == other.name_hash
            && same_text(&self.name, self.name_length, &other.name, other.name_length)
            && same_text(
                &self.resource_data,
                self.resource_length,
                &other.resource_data,
                other.resource_length,
            )
    }

    #[tactic(auto, using(crate::proofs::Sets::field_tests), unfolding(crate::specs::State::same_state))]
    pub fn same(self, other: NameState) -> bool
        ensures { result ≡ same_state (state_of self) (state_of other) }
    {
        self.same_texts(&other)
            && self.heights() == other.heights()
            && self.amounts() == other.amounts()
            && self.times() == other.times()
            && self.owner == other.owner
            && self.registered == other.registered
            && self.expired == other.expired
            && self.weak == other.weak
    }
}
