//! Lists of calls on the storage layer (`Keeper`), proved from the contracts of its public calls
//! alone. This crate is not a part of the program: it is what a client of the storage layer can
//! prove, and no other crate uses it. Laws join calls, imports and served streams into lists;
//! between any two calls there may be a crash, followed by a new `Keeper` over what it left. On a
//! disk that returns what was written, a load then finds a book. The book contains each
//! acknowledged command, in the order in which they were sent, and the commands of the rows that an
//! import counted. It may also contain commands that a store fault left in doubt.
#![tactic(auto)]

mod calls;
mod headline;
mod laws;
mod lists;

pub use calls::{
    act, audit, create_again, import, import_text, load, migrate, moves_out, plan, reply_of,
    run_serve, serve_stream,
};
pub use headline::{load_and_show, show};
pub use laws::{join_law, restart_law, told_law};
pub use lists::{
    Restart, act_create, act_import_restart_load, act_load_load, create_act_restart_load,
    create_import_restart_load, create_restart_load, migrate_load_audit,
    migrate_restart_migrate_load,
};
