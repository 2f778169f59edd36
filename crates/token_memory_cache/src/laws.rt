// Laws of caches over whole histories of calls. The functions do nothing: what they ensure holds of every cache.
ghost use Rattle.token_memory_cache.specs.Histories.{Throughout, HandsOutTheOldest, HandsOutTheNewest, PushesOutTheUnused, LosesOnlySo, AddsOnlySo, HoldsWhatIsInserted};

use crate::cache::{MemoryCache, NewestFirstCache, TokenMemoryCache};
use crate::order::{NewestFirst, OldestFirst, TakeOrder};

/// Where the oldest comes first, a take hands out, of the tokens that its name holds, the one that came first, and none only
/// where it holds none. A token came with the insert since which it has been held: a duplicate keeps its age.
pub fn a_take_hands_out_the_oldest(cache: &TokenMemoryCache)
    ensures { Throughout (⟦<OldestFirst as TakeOrder>⟧.place) HandsOutTheOldest cache.now }
{}

/// Where the newest comes first, it hands out the one that came last, and none only where it holds none.
pub fn a_take_hands_out_the_newest(cache: &NewestFirstCache)
    ensures { Throughout (⟦<NewestFirst as TakeOrder>⟧.place) HandsOutTheNewest cache.now }
{}

/// In every order: an insert under a name that holds no token, where the names that do are as many as the limit, pushes out
/// just one name: of those, the one whose last insert that was not refused, or take that handed out a token, is longest ago.
pub fn a_new_name_pushes_out_the_one_unused_longest<O: TakeOrder>(cache: &MemoryCache<O>)
    ensures { Throughout O.TakeOrder.place PushesOutTheUnused cache.now }
{}

/// In every order: a token that is held goes just where a take hands it out, where it is the oldest of a full name at an insert
/// of another one there, or where its name is pushed out.
pub fn a_token_goes_in_three_ways<O: TakeOrder>(cache: &MemoryCache<O>)
    ensures { Throughout O.TakeOrder.place LosesOnlySo cache.now }
{}

/// In every order: a token that is not held comes just by an insert of it that is not refused, with both limits above zero; and
/// after such an insert it is held, whether or not it was before.
pub fn a_token_comes_by_its_insert<O: TakeOrder>(cache: &MemoryCache<O>)
    ensures comes { Throughout O.TakeOrder.place AddsOnlySo cache.now }
    ensures held { Throughout O.TakeOrder.place HoldsWhatIsInserted cache.now }
{}
