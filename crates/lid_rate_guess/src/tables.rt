//! Tables with a number for each transition or edge. What is read past the end is a default, and what
//! is written there is dropped.

use lid_graph::Edge;

/// The item at a place, or the default past the end.
pub fn get<T: Copy>(table: &[T], place: u32, default: T) -> T {
    let place = place as usize;
    if place < table.len() {
        table[place]
    } else {
        default
    }
}

/// Writes an item at a place. Past the end it does nothing.
pub fn put<T: Copy>(table: &mut [T], place: u32, item: T) {
    let place = place as usize;
    if place < table.len() {
        table[place] = item;
    }
}

/// Writes items at places, one after the other: the default where there are more places than items. What
/// is written past the end of the table is dropped.
pub fn put_each<T: Copy>(table: &mut [T], places: &[u32], items: &[T], default: T) {
    let mut number: u32 = 0;
    for place in places {
        put(table, *place, get(items, number, default));
        number = number.wrapping_add(1);
    }
}

/// The edge with this number, or past the end one from transition 0 to itself without a token.
pub fn edge_at(edges: &[Edge], k: u32) -> Edge {
    let none = Edge {
        from: 0,
        to: 0,
        tokens: 0,
    };
    get(edges, k, none)
}
