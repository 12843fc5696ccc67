/// Whether a comparison of texts respects or ignores ASCII case.
#[derive(Clone, Copy)]
pub enum Case {
    Sensitive,
    Insensitive,
}
