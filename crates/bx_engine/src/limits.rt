//! How much of the source a build reads, how long it may run, with how many workers, whether types are checked, and which
//! stores it uses.

ghost use Rattle.std.specs.Prelude.{◌≡◌};
ghost use Rattle.bx_engine.specs.Expected.{limits_of as limits_of_order};
ghost use Rattle.bx_engine.specs.Stores.{uses_graphs as uses_graphs_in, uses_store};
ghost use Rattle.bx_engine_words.specs.Words.{asks_graphs as asks_graphs_in, workers_in};

use bx_engine_front::Limits;
use bx_engine_words::Order;
use bx_tree::MAX_BUNDLE_BYTES;

/// How many bytes of the source a build reads at most: one more than a bundle may have, which shows that a
/// longer input is too long.
pub const READ_LIMIT: usize = MAX_BUNDLE_BYTES + 1;

/// How many bytes a build asks the source for in one call at most.
pub const READ_PIECE: usize = 65_536;

/// The steps that an order allows a build, and whether it asks for its types.
pub(crate) fn limits_of(order: &Order) -> Limits
    ensures { result ≡ limits_of_order order.now }
{
    match order {
        Order::Build {
            eval_budget,
            tool_budget,
            types,
            ..
        } => Limits {
            eval_budget: *eval_budget,
            tool_budget: *tool_budget,
            types: *types,
        },
        Order::Check | Order::Repair | Order::Trim { .. } | Order::Gen { .. } => Limits {
            eval_budget: 0,
            tool_budget: 0,
            types: false,
        },
    }
}

/// Whether an order lets the call use the store.
pub(crate) fn is_cached(order: &Order) -> bool
    ensures { result ≡ uses_store order.now }
{
    match order {
        Order::Build { cached, .. } => *cached,
        Order::Check | Order::Repair | Order::Trim { .. } => true,
        Order::Gen { .. } => false,
    }
}

/// Whether an order asks for the store of graphs.
pub(crate) fn asks_graphs(order: &Order) -> bool
    ensures { result ≡ asks_graphs_in order.now }
{
    match order {
        Order::Build { graphs, .. } => *graphs,
        Order::Check | Order::Repair | Order::Trim { .. } | Order::Gen { .. } => false,
    }
}

/// Whether an order lets the call use the store of graphs.
pub(crate) fn uses_graphs(order: &Order) -> bool
    ensures { result ≡ uses_graphs_in order.now }
{
    asks_graphs(order) && is_cached(order)
}

/// How many workers an order asks for.
pub(crate) fn workers_of(order: &Order) -> u32
    ensures { result ≡ workers_in order.now }
{
    match order {
        Order::Build { workers, .. } => *workers,
        Order::Check | Order::Repair | Order::Trim { .. } | Order::Gen { .. } => 0,
    }
}
