//! The parts of a keeper: a connection and a book, and which store they are over.
ghost use Rattle.ob_store.specs.Over.{IsOver};

use ob_book::Book;
use ob_sweep::Timeline;
use sqlite::{Alter, Connection};
use std::alloc::Global;
use std::marker::{Model, PhantomData};

/// A connection without an open transaction, and the book of its tables, where there is one.
#[derive(Drop)]
pub(crate) struct Parts<S: Alter, T: Timeline> {
    pub(crate) alloc: Global,
    pub(crate) conn: Connection<S>,
    pub(crate) book: Option<Book<T>>,
}

impl<S: Alter, T: Timeline> Model for Parts<S, T> {
    ghost use Rattle.std.specs.Prelude.{◌≡◌, false};
    ghost use Rattle.std.specs.Option.{option_map, option_map_or};
    ghost use Rattle.std.specs.Coded.{codes};
    ghost use Rattle.sqlite.specs.Held.{held_code};
    ghost use Rattle.ob_store.specs.Keeping.{KeeperValue, keeper_code};

    ghost Value = { KeeperValue S };

    ghost coded = { keeper_code (held_code S.code) (Prim.hlevel codes) };

    ghost view = { λ k. record {
      conn = k.conn;
      book = option_map (λ b. b.state) k.book;
      searches = option_map_or (λ b. b.searches) k.book 0;
    } };

    ghost invariant = { λ k. k.conn.in_transaction ≡ false };
}

/// Which store a keeper is over. It holds nothing: the type of a keeper then says what its store
/// promises, so that a contract on a keeper names no store.
#[derive(Drop)]
pub(crate) struct Over<S: Alter> {
    pub(crate) store: PhantomData<S>,
    ghost promises: { IsOver S.Store },
}
