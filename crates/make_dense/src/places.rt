// Where variables stand once a level has gone in before another one.
ghost use Rattle.std.specs.Prelude.{◌≡◌, ◌<◌, IfSome};
ghost use Rattle.make_dense.specs.Places.{further, vars, dense_var, entry_var, column_var, IsPlaces};

/// Where the variables of a statement stand. Behind its parameters stand its levels with a new one among them, then its old
/// terms, and then a read of the column where it had none.
#[derive(Clone, Copy)]
pub struct Places {
    pub params: usize,
    /// How many levels there were.
    pub depth: usize,
    /// How many terms there were.
    pub terms: usize,
    /// The new level, counted from 1. The level that goes over the entries comes right behind it.
    pub level: usize,
    /// The old term that reads the entry's column.
    pub column: Option<usize>,
}

/// How many terms there are more.
fn further(column: Option<usize>) -> usize
    ensures value { result ≡ further column }
{
    match column {
        Some(_) => 0,
        None => 1,
    }
}

/// How many variables there are.
pub fn vars(places: Places) -> usize
    requires { IsPlaces places }
    ensures { result ≡ vars places }
{
    places.params + (places.depth + 1) + places.terms + further(places.column)
}

/// The new level.
pub fn dense_var(places: Places) -> usize
    requires { IsPlaces places }
    ensures value { result ≡ dense_var places }
    ensures within { result < vars places }
{
    places.params + (places.level - 1)
}

/// The level that goes over the entries.
pub fn entry_var(places: Places) -> usize
    requires { IsPlaces places }
    ensures value { result ≡ entry_var places }
    ensures within { result < vars places }
{
    places.params + places.level
}

/// The read of the entry's column.
pub fn column_var(places: Places) -> usize
    requires { IsPlaces places }
    ensures value { result ≡ column_var places }
    ensures within { result < vars places }
{
    let before = places.params + (places.depth + 1);
    match places.column {
        Some(place) => before + place,
        None => before + places.terms,
    }
}
