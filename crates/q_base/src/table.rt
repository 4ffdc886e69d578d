ghost use Rattle.std.specs.Prelude.{◌≡◌, [], ◌∷◌, length, IsTrue, MatchOption};
ghost use Rattle.std.specs.Option.{option_copied};
ghost use Rattle.q_base.specs.Tables.{ascends, rows_of, value_of};

/// A constant table of `N` rows whose keys ascend strictly, so that a key has one row at most.
#[derive(Drop)]
pub struct Table<'a, K: Ord, V, const N: usize> {
    rows: &'a [(K, V)],
    ghost ascending: { IsTrue (ascends K.cmp rows.now) },
    ghost whole: { length rows.now ≡ N },
}

impl<'a, K: Ord, V, const N: usize> Table<'a, K, V, N> {
    /// The table of `rows`, whose order and number the caller proves; it takes no memory.
    pub fn new(rows: &'a [(K, V)]) -> Table<'a, K, V, N>
        requires ascending { IsTrue (ascends K.cmp rows.now) }
        requires whole { length rows.now ≡ N }
        ensures { result.rows.now ≡ rows.now }
    {
        Table { rows }
    }

    /// The value of the only row of `key`; `None` exactly where no row has it. A binary search: it compares
    /// the key with about as many rows as the number of rows has binary digits.
    pub fn find(&self, key: &K) -> Option<&'a V>
        ensures value { option_copied result ≡ value_of K.cmp key.now self.now.rows.now }
        ensures only { MatchOption (option_copied result) (rows_of K.cmp key.now self.now.rows.now ≡ []) (λ value. (same : K) × (rows_of K.cmp key.now self.now.rows.now ≡ (same, value) ∷ [])) }
    {
        let rows = self.rows;
        match rows.binary_search_by(|row| row.0.cmp(key)) {
            Ok(at) => Some(&rows[at].1),
            Err(_) => None,
        }
    }
}
