//! Rising lists without repeats.

ghost use Rattle.std.specs.Prelude.{◌≡◌, ltb};
ghost use Rattle.site_graph.specs.Rising.{rising, edge_before};

use site_graph::Edge;
use sqlite_items::Items;

/// The numbers in rising order, each once.
pub fn rising_numbers(numbers: Vec<u32>) -> Items<u32>
    ensures { result ≡ rising ltb numbers.items }
{
    let mut sorted = numbers;
    sorted.sort_unstable();
    sorted.dedup();
    Items::from_vec(sorted)
}

/// The edges by their first point and then by their second, each once.
pub fn rising_edges(edges: Vec<Edge>) -> Items<Edge>
    ensures { result ≡ rising edge_before edges.items }
{
    let mut sorted = edges;
    sorted.sort_unstable_by_key(|edge| (edge.from, edge.to));
    sorted.dedup();
    Items::from_vec(sorted)
}
