//! The law of fetches from a memory that holds every page.

ghost use Rattle.page_store.specs.FetchLaw.{WholeFetchLaw};

/// A memory that holds every page gives the bytes that are published there, up to the first that is
/// absent.
pub fn whole_fetch()
    ensures { WholeFetchLaw }
{}
