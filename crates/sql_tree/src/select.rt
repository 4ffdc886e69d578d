use crate::{ColumnRefList, Expr, Numeral, QName};
use q_base::{ListOf, Str};

/// One entry of a select list or of RETURNING.
#[derive(Drop)]
pub enum OutputItem {
    /// `*`.
    All,
    /// `name.*`, as the name.
    AllOf(Str),
    /// An expression and the output name that was written behind it.
    Expr(Expr, Option<Str>),
}

/// A select list, or what stands behind RETURNING.
pub type OutputList = ListOf<OutputItem>;

/// A table or a view in FROM, with the alias that was written behind it.
#[derive(Drop)]
pub struct FromItem {
    pub relation: QName,
    pub alias: Option<Str>,
}

/// A further item of a chain.
#[derive(Drop)]
pub enum Join {
    /// JOIN or INNER JOIN, with the condition behind ON.
    Inner(FromItem, Expr),
    Cross(FromItem),
}

/// The further items of a chain, in order.
pub type JoinList = ListOf<Join>;

/// What stands between two commas of FROM: an item and the items that are joined to it.
#[derive(Drop)]
pub struct FromChain {
    pub first: FromItem,
    pub joins: JoinList,
}

/// What stands behind FROM.
pub type FromList = ListOf<FromChain>;

/// SELECT up to and with WHERE.
#[derive(Drop)]
pub struct SelectCore {
    pub distinct: bool,
    pub outputs: OutputList,
    pub from: FromList,
    /// The condition behind WHERE.
    pub condition: Option<Expr>,
}

/// GROUP BY and HAVING.
#[derive(Drop)]
pub struct Grouping {
    pub keys: ColumnRefList,
    pub having: Option<Expr>,
}

/// A key of ORDER BY. Where neither NULLS FIRST nor NULLS LAST is written, nulls come first exactly where
/// the key descends.
#[derive(Drop)]
pub struct OrderItem {
    pub expr: Expr,
    pub descending: bool,
    pub nulls_first: bool,
}

/// What stands behind ORDER BY.
pub type OrderList = ListOf<OrderItem>;

/// What stands behind LIMIT or OFFSET.
#[derive(Drop)]
pub enum RowCount {
    Number(Numeral),
    /// `$n`, as its digits.
    Param(Str),
    /// NULL, or ALL behind LIMIT.
    Null,
}

/// LIMIT and OFFSET, where they are written.
#[derive(Drop)]
pub struct Limits {
    pub limit: Option<RowCount>,
    pub offset: Option<RowCount>,
}

/// A SELECT.
#[derive(Drop)]
pub struct Select {
    pub core: SelectCore,
    pub grouping: Grouping,
    pub order: OrderList,
    pub limits: Limits,
}
