use generic_names::Pattern;

/// A name with what is stored under it.
#[derive(Drop)]
pub struct Entry<T> {
    pub name: Pattern,
    pub item: T,
}
