//! The items of unions.

ghost use Rattle.std.specs.Prelude.{◌≡◌, Some, option_copied, option_map};
ghost use Rattle.view_model.specs.Items.{both_of, left_of, left_or_right_of, right_of, right_or_left_of};

/// An item of either view of a union, or of both.
#[derive(Clone, Copy, Drop)]
pub enum UnionItem<L, R> {
    Left(L),
    Right(R),
    Both(L, R),
}

impl<L, R> UnionItem<L, R> {
    /// The left view's item. None exactly of Right.
    pub fn left(&self) -> Option<&L>
        ensures { option_copied result ≡ left_of self.now }
    {
        match self {
            UnionItem::Left(left) | UnionItem::Both(left, _) => Some(left),
            UnionItem::Right(_) => None,
        }
    }

    /// The right view's item. None exactly of Left.
    pub fn right(&self) -> Option<&R>
        ensures { option_copied result ≡ right_of self.now }
    {
        match self {
            UnionItem::Right(right) | UnionItem::Both(_, right) => Some(right),
            UnionItem::Left(_) => None,
        }
    }

    /// Both items. Some exactly of Both.
    pub fn both(&self) -> Option<(&L, &R)>
        ensures { option_map (λ p. (p.0.now, p.1.now)) result ≡ both_of self.now }
    {
        match self {
            UnionItem::Both(left, right) => Some((left, right)),
            UnionItem::Left(_) | UnionItem::Right(_) => None,
        }
    }
}

impl<L: Drop, R: Drop> UnionItem<L, R> {
    /// The left view's item, for good. None exactly of Right.
    pub fn into_left(self) -> Option<L>
        ensures { result ≡ left_of self }
    {
        match self {
            UnionItem::Left(left) => Some(left),
            UnionItem::Right(_right) => None,
            UnionItem::Both(left, _right) => Some(left),
        }
    }

    /// The right view's item, for good. None exactly of Left.
    pub fn into_right(self) -> Option<R>
        ensures { result ≡ right_of self }
    {
        match self {
            UnionItem::Left(_left) => None,
            UnionItem::Right(right) => Some(right),
            UnionItem::Both(_left, right) => Some(right),
        }
    }

    /// What either view has, for good.
    pub fn into_both(self) -> (Option<L>, Option<R>)
        ensures left { result.0 ≡ left_of self }
        ensures right { result.1 ≡ right_of self }
    {
        match self {
            UnionItem::Left(left) => (Some(left), None),
            UnionItem::Right(right) => (None, Some(right)),
            UnionItem::Both(left, right) => (Some(left), Some(right)),
        }
    }
}

impl<T: Drop> UnionItem<T, T> {
    /// The left view's item where it is there, else the right one's.
    pub fn left_or_right(self) -> T
        ensures { result ≡ left_or_right_of self }
    {
        match self {
            UnionItem::Left(left) => left,
            UnionItem::Right(right) => right,
            UnionItem::Both(left, _right) => left,
        }
    }

    /// The right view's item where it is there, else the left one's.
    pub fn right_or_left(self) -> T
        ensures { result ≡ right_or_left_of self }
    {
        match self {
            UnionItem::Left(left) => left,
            UnionItem::Right(right) => right,
            UnionItem::Both(_left, right) => right,
        }
    }
}

/// An item of either view of a covering union, with the longest pair of the other one that contains its
/// prefix, or of both.
#[derive(Clone, Copy, Drop)]
pub enum CoveringUnionItem<P, L, R> {
    Left { left: L, right_lpm: Option<(P, R)> },
    Right { left_lpm: Option<(P, L)>, right: R },
    Both { left: L, right: R },
}
