//! A guess of the first capacities that reach, station by station.

use crate::channels::{Channel, Channels, channels_of, push_back};
use crate::search::{Search, begin, distance, new_search, raise, reverse, tell_way};
use lid_cert::Cert;
use lid_graph::Graph;
use lid_rate_guess::{get, put_each};
use lid_rate_ratio::Ratio;
use std::alloc::{AllocError, Global};

/// What is guessed of a station.
#[derive(Drop)]
pub struct NextSize {
    /// Its capacity.
    pub capacity: u32,
    /// Where ways begin: the producer of its channel.
    pub root: u32,
    /// Where the capacity is above 2, edges of ways from there. Each goes on where another ends that was told
    /// before, for this station or for one before it with the same root.
    pub ways: Vec<u32>,
    /// A walk from where one of these ways ends back to the root. With one place less at the station, and 16
    /// for all later ones, both together make a closed walk of lower ratio than is wanted.
    pub closing: Vec<u32>,
}

/// What is guessed of one station of a marking after the other.
#[derive(Drop)]
pub struct SizeGuess {
    /// What was guessed last.
    pub next: NextSize,
    field: Field,
    search: Search,
    at: Spot,
}

/// The channels of the marking, and a label for each transition.
#[derive(Drop)]
struct Field {
    channels: Channels,
    labels: Vec<u64>,
}

/// The channel of the next station and how many stations of it are done, how many places those have and how
/// many all of them are to have; whether there was a search from the producer, and by how much its label is
/// to rise.
#[derive(Clone, Copy)]
struct Spot {
    channel: u32,
    place: u32,
    taken: u64,
    places: u64,
    is_searched: bool,
    rise: u64,
}

/// Before all stations.
const FIRST: Spot = Spot {
    channel: 0,
    place: 0,
    taken: 0,
    places: 0,
    is_searched: false,
    rise: 0,
};

/// The lags of a certificate.
fn lags_of(alloc: Global, graph: &Graph, cert: &Cert) -> Result<Vec<u64>, AllocError> {
    let mut labels = Vec::from_elem(alloc, 0, graph.nodes as usize)?;
    for part in cert.parts.as_slice() {
        put_each(&mut labels, part.nodes.as_slice(), part.lag.as_slice(), 0);
    }
    Ok(labels)
}

/// The channels, and the lags as labels.
fn field_of(alloc: Global, graph: &Graph, stations: u32, cert: &Cert) -> Result<Field, AllocError> {
    let channels = channels_of(alloc, graph, stations)?;
    let labels = lags_of(alloc, graph, cert)?;
    Ok(Field { channels, labels })
}

/// The ratio that the component of a transition is to have.
fn want_at(wants: &[Ratio], v: u32) -> Ratio {
    get(wants, v, Ratio { p: 1, q: 1 })
}

/// How much the label of a channel's producer lacks where its stations have so many places in all, or 0.
fn lack(labels: &[u64], want: Ratio, channel: Channel, places: u64) -> u64 {
    let along = want.p.wrapping_mul(u64::from(channel.stations));
    let asked = get(labels, channel.to, 0).wrapping_add(along);
    let room = want.q.wrapping_mul(places.wrapping_sub(1));
    asked.saturating_sub(get(labels, channel.from, 0).wrapping_add(room))
}

/// The least places of a channel that ask for no more than so far a way of its consumer.
fn places_by(labels: &[u64], want: Ratio, channel: Channel, far: u64) -> u64 {
    if want.q == 0 {
        return 0;
    }
    lack(labels, want, channel, 1)
        .saturating_sub(far)
        .div_ceil(want.q)
        .wrapping_add(1)
}

/// Two places for each station of a channel.
fn twice(channel: Channel) -> u64 {
    u64::from(channel.stations).wrapping_mul(2)
}

/// How much the producer of a channel lacks at most, where its channels from this one on have two places for each
/// station.
fn most_lack(guess: &SizeGuess, want: Ratio) -> u64 {
    let mut most: u64 = 0;
    for number in guess.at.channel..u32::MAX {
        let channel = guess.field.channels.at(number);
        if channel.stations == 0 || channel.from != guess.next.root {
            break;
        }
        most = most.max(lack(&guess.field.labels, want, channel, twice(channel)));
    }
    most
}

/// How many places the stations of a channel are to have.
fn places_of(guess: &mut SizeGuess, want: Ratio, channel: Channel) -> Result<u64, AllocError> {
    let need = lack(&guess.field.labels, want, channel, twice(channel));
    if need == 0 {
        return Ok(twice(channel));
    }
    if !guess.at.is_searched {
        let most = most_lack(guess, want);
        begin(&mut guess.search, guess.next.root, want, most)?;
        guess.at.is_searched = true;
    }
    let found = distance(
        &mut guess.search,
        &guess.field.labels,
        &guess.field.channels,
        channel.to,
        need,
    )?;
    match found {
        Some(far) => Ok(places_by(&guess.field.labels, want, channel, far)),
        None => Ok(twice(channel)),
    }
}

/// Goes on to the channels of another producer.
fn change_root(guess: &mut SizeGuess, root: u32) {
    if guess.at.is_searched {
        raise(&mut guess.field.labels, &guess.search, guess.at.rise);
    }
    guess.next.root = root;
    guess.at.is_searched = false;
    guess.at.rise = 0;
}

/// Writes down why one place less does not do.
fn tell(guess: &mut SizeGuess, channel: Channel) -> Result<(), AllocError> {
    let back = guess.at.channel.wrapping_mul(2).wrapping_add(1);
    tell_way(
        &mut guess.next.ways,
        &mut guess.search,
        &guess.field.channels,
        channel.to,
    )?;
    push_back(&mut guess.next.closing, &guess.field.channels, back)?;
    reverse(guess.next.closing.as_mut_slice());
    Ok(())
}

/// Goes on to the next channel.
fn end_channel(guess: &mut SizeGuess, want: Ratio, channel: Channel) {
    let rise = lack(&guess.field.labels, want, channel, guess.at.taken);
    guess
        .field
        .channels
        .set_room(guess.at.channel, guess.at.taken.wrapping_sub(1));
    guess.at.rise = guess.at.rise.max(rise);
    guess.at.channel = guess.at.channel.wrapping_add(1);
    guess.at.place = 0;
    guess.at.taken = 0;
}

/// The next capacity of a channel.
fn next_capacity(at: Spot, channel: Channel) -> u32 {
    let after = channel.stations.wrapping_sub(at.place).wrapping_sub(1);
    let later = u64::from(after).wrapping_mul(16).wrapping_add(at.taken);
    let least = at.places.saturating_sub(later).max(2).min(16);
    u32::try_from(least).unwrap_or(16)
}

/// A guess of the first capacities of so many stations with which the component of each transition has the
/// ratio that is wanted, from a certificate of the marking with 16 everywhere, in which it has. It says nothing
/// of what it answers: test it.
///
/// Between producer and consumer it is the places of all stations of a channel together that count. Station by station each capacity is the least
/// that leaves as many as are wanted, with 16 for all later ones. How many are wanted is found by a search for the
/// nearest way from the producer to the consumer, where arcs cost what their ends have beyond what they ask
/// for. All channels of a producer share one search, since what is chosen for them shortens no way from it. Labels are then raised
/// just as far as these places need, so nearly all later channels are done by a look at their labels.
///
/// # Errors
/// Where there is no memory.
pub fn begin_sizes(
    alloc: Global,
    graph: &Graph,
    stations: u32,
    cert: &Cert,
) -> Result<SizeGuess, AllocError> {
    let field = field_of(alloc, graph, stations, cert)?;
    let search = new_search(alloc, graph.nodes)?;
    Ok(SizeGuess {
        next: NextSize {
            capacity: 0,
            root: u32::MAX,
            ways: Vec::new(alloc),
            closing: Vec::new(alloc),
        },
        field,
        search,
        at: FIRST,
    })
}

/// Guesses the capacity of the next station.
///
/// # Errors
/// Where there is no memory.
pub fn propose_next(guess: &mut SizeGuess, wants: &[Ratio]) -> Result<(), AllocError> {
    guess.next.ways.clear();
    guess.next.closing.clear();
    let channel = guess.field.channels.at(guess.at.channel);
    let want = want_at(wants, channel.from);
    if channel.from != guess.next.root {
        change_root(guess, channel.from);
    }
    if guess.at.place == 0 {
        guess.at.places = places_of(guess, want, channel)?;
    }
    guess.next.capacity = next_capacity(guess.at, channel);
    if guess.next.capacity > 2 {
        tell(guess, channel)?;
    }
    guess.at.taken = guess.at.taken.wrapping_add(u64::from(guess.next.capacity));
    guess.at.place = guess.at.place.wrapping_add(1);
    if guess.at.place >= channel.stations {
        end_channel(guess, want, channel);
    }
    Ok(())
}
