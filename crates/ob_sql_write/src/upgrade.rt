//! Upgrades the tables of version 1 to those of version 2 in one transaction.
ghost use Rattle.std.specs.Prelude.{◌≡◌, false, OnOk, IfErr};
ghost use Rattle.sqlite.specs.Held.{state};
ghost use Rattle.sqlite.specs.State.{HasCleanDisk, Survives};
ghost use Rattle.ob_base.specs.Stop.{out_of_memory};
ghost use Rattle.ob_sql_rows.specs.Steps.{IsStoreFault};
ghost use Rattle.ob_sql_rows.specs.Rows.{Always, Tables};
ghost use Rattle.ob_sql_rows.specs.declared.version.Version.{Version as AVersion};
ghost use Rattle.ob_sql_write.specs.Keeps.{ChangesOpen, HasCommitCause, Keeps, KeepsIn, KeepsNumbers};
ghost use Rattle.ob_sql_write.specs.Upgrade.{CanUpgrade, HasBodies, KeepsOldOr, LeavesUpgraded, LetsBodies, LetsLivesOf, LetsUpgrade, UpgradesOpen, with_bodies, with_lives, with_upgrade};

use ob_base::{Fault, Life, Stop};
use ob_sql_rows::{add_life, create_life, set_body, set_version};
use sqlite::{Alter, Connection, Transaction};

/// A new body text for the command of a number.
#[derive(Drop)]
pub struct NewBody {
    /// The number.
    pub no: u32,
    /// The text.
    pub body: Vec<u8>,
}

/// Replaces the body texts of commands.
fn write_bodies<S: Alter>(tx: &mut Transaction<'_, S>, bodies: &[NewBody]) -> Result<(), Stop>
    ensures { ChangesOpen S.Store tx.old.conn tx.new.conn result (HasBodies bodies.now)
        (LetsBodies bodies.now) (with_bodies bodies.now) }
{
    'bodies: for at in 0..bodies.len() {
        let it = &bodies[at];
        set_body(tx, it.no, &it.body)?;
    }
    Ok(())
}

/// Gives the devices with numbers from 0 up to `devices` an in-service interval from the first
/// second on, without end.
fn write_lives<S: Alter>(tx: &mut Transaction<'_, S>, devices: u16) -> Result<(), Stop>
    ensures { ChangesOpen S.Store tx.old.conn tx.new.conn result Always
        (LetsLivesOf devices) (with_lives devices) }
{
    let whole = Life {
        since: 0,
        until: None,
    };
    'lives: for at in 0..devices {
        add_life(tx, at, whole)?;
    }
    Ok(())
}

/// Upgrades the tables of version 1 to those of version 2: adds the table of in-service intervals
/// with one interval for each device, replaces these bodies, and sets the version to 2.
fn write_upgrade<S: Alter>(
    tx: &mut Transaction<'_, S>,
    bodies: &[NewBody],
    devices: u16,
) -> Result<(), Stop>
    ensures { UpgradesOpen S.Store tx.old.conn tx.new.conn result (CanUpgrade bodies.now devices)
        (LetsUpgrade bodies.now devices) (with_upgrade bodies.now devices) }
{
    create_life(tx)?;
    write_bodies(tx, bodies)?;
    write_lives(tx, devices)?;
    set_version(tx, 2)
}

/// Commits the upgrade of the tables of version 1 to version 2, all or nothing. It writes the table
/// of in-service intervals, an interval from the first second on without end for each of `devices`
/// devices, these body texts, and the version.
pub fn commit_upgrade<S: Alter>(
    conn: &mut Connection<S>,
    bodies: &[NewBody],
    devices: u16,
) -> Result<(), Stop>
    requires mode { conn.old.in_transaction ≡ false }
    ensures mode { conn.new.in_transaction ≡ false }
    ensures faults { IfErr result IsStoreFault }
    ensures done { OnOk result ((t : Tables) → KeepsIn AVersion.One (state S.Store conn.old) t
        → CanUpgrade bodies.now devices t → Keeps (state S.Store conn.new)
        (with_upgrade bodies.now devices t)) }
    ensures undone { IfErr result (λ stop. stop ≡ out_of_memory → (t : Tables)
        → KeepsIn AVersion.One (state S.Store conn.old) t
        → KeepsIn AVersion.One (state S.Store conn.new) t) }
    ensures either { IfErr result (λ stop. (t : Tables)
        → KeepsIn AVersion.One (state S.Store conn.old) t → CanUpgrade bodies.now devices t
        → KeepsOldOr (state S.Store conn.new) t (with_upgrade bodies.now devices t)) }
    // if the rules of the tables admit the rows, `Fault::Store` means that the store failed or
    // rolled the transaction back
    ensures cause { IfErr result (λ stop. stop ≡ Stop.Fault Fault.Store → HasCleanDisk (state S.Store conn.new)
        → (t : Tables) → KeepsIn AVersion.One (state S.Store conn.old) t
        → KeepsNumbers (state S.Store conn.old) → CanUpgrade bodies.now devices t
        → LetsUpgrade bodies.now devices t
        → HasCommitCause S.Store (state S.Store conn.old) (state S.Store conn.new)
        (with_upgrade bodies.now devices t)) }
    // the hidden row numbers stay 1, 2, 3 and so on
    ensures numbered { (t : Tables) → KeepsIn AVersion.One (state S.Store conn.old) t
        → CanUpgrade bodies.now devices t → KeepsNumbers (state S.Store conn.old)
        → KeepsNumbers (state S.Store conn.new) }
    ensures survives { Survives (state S.Store conn.old) (state S.Store conn.new)
        (LeavesUpgraded (state S.Store conn.old) (CanUpgrade bodies.now devices)
        (with_upgrade bodies.now devices)) }
{
    // an open connection shows a complete database
    let _schema = conn.schema();
    let mut tx = conn.transaction();
    write_upgrade(&mut tx, bodies, devices)?;
    match tx.commit() {
        Ok(()) => Ok(()),
        Err(_) => Err(Stop::Fault(Fault::Store)),
    }
}
