// A row of the table becomes a record only after a check, and a record is written back as a row, whole.
ghost use Rattle.std.specs.Prelude.{◌≡◌, true};
ghost use Rattle.logins.specs.Logins.{row_of, sound};
ghost use Rattle.logins.specs.Checks.{Checks};

use crate::rows::{Login, LoginRow, UnsoundRow};

impl TryFrom<LoginRow> for Login {
    type Error = UnsoundRow;

    ghost try_from_gives = { Checks };

    fn try_from(row: LoginRow) -> Result<Login, UnsoundRow> {
        if row.owner_eui_64.is_none() && !row.owner_id.is_none() {
            return Err(UnsoundRow::NodeOfNobody);
        }
        let reserved = !row.owner_eui_64.is_none() && row.owner_id.is_none();
        if !reserved && row.ticks_left != 0 {
            return Err(UnsoundRow::TicksNotReserved);
        }
        Ok(Login {
            unit: row.unit,
            owner_id: row.owner_id,
            owner_eui_64: row.owner_eui_64,
            status_fifo: row.status_fifo,
            exclusive: row.exclusive,
            aware: row.aware,
            hold: row.hold,
            ticks_left: row.ticks_left,
        })
    }
}

impl From<Login> for LoginRow {
    ghost from_gives = { λ login row. (row ≡ row_of login) × (sound row ≡ true) };

    fn from(login: Login) -> LoginRow {
        LoginRow {
            unit: login.unit,
            owner_id: login.owner_id,
            owner_eui_64: login.owner_eui_64,
            status_fifo: login.status_fifo,
            exclusive: login.exclusive,
            aware: login.aware,
            hold: login.hold,
            ticks_left: login.ticks_left,
        }
    }
}
