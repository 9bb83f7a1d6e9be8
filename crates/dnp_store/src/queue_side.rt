//! The two sides of a queue, and the statements of each.

ghost use Rattle.std.specs.Prelude.{◌≡◌};
ghost use Rattle.dnp_store.specs.Texts.{lanes_update, rows_delete, rows_insert, rows_insert_16};

/// One of the two sides of a queue: the lanes for the first centre, or for the second.
#[derive(Clone, Copy)]
pub(crate) enum QueueSide {
    /// For the first centre: `queue` and `lanes`.
    First,
    /// For the second centre: `queue_b` and `lanes_b`.
    Second,
}

/// The statement that puts a row into the table of a side.
pub(crate) fn insert_text(side: QueueSide) -> &'static str
    ensures { result.now ≡ rows_insert side }
{
    match side {
        QueueSide::First => {
            "INSERT INTO queue (lane, point, flags, value, time) VALUES (?1, ?2, ?3, ?4, ?5)"
        }
        QueueSide::Second => {
            "INSERT INTO queue_b (lane, point, flags, value, time) VALUES (?1, ?2, ?3, ?4, ?5)"
        }
    }
}

/// The statement that takes rows of a lane out of the table of a side.
pub(crate) fn delete_text(side: QueueSide) -> &'static str
    ensures { result.now ≡ rows_delete side }
{
    match side {
        QueueSide::First => "DELETE FROM queue WHERE lane = ?1 AND id <= ?2",
        QueueSide::Second => "DELETE FROM queue_b WHERE lane = ?1 AND id <= ?2",
    }
}

/// The statement that puts sixteen rows into the table of a side.
pub(crate) fn insert_16_text(side: QueueSide) -> &'static str
    ensures { result.now ≡ rows_insert_16 side }
{
    match side {
        QueueSide::First => {
            "INSERT INTO queue (lane, point, flags, value, time) VALUES \
             (?1, ?2, ?3, ?4, ?5), (?6, ?7, ?8, ?9, ?10), (?11, ?12, ?13, ?14, ?15), \
             (?16, ?17, ?18, ?19, ?20), (?21, ?22, ?23, ?24, ?25), (?26, ?27, ?28, ?29, ?30), \
             (?31, ?32, ?33, ?34, ?35), (?36, ?37, ?38, ?39, ?40), (?41, ?42, ?43, ?44, ?45), \
             (?46, ?47, ?48, ?49, ?50), (?51, ?52, ?53, ?54, ?55), (?56, ?57, ?58, ?59, ?60), \
             (?61, ?62, ?63, ?64, ?65), (?66, ?67, ?68, ?69, ?70), (?71, ?72, ?73, ?74, ?75), \
             (?76, ?77, ?78, ?79, ?80)"
        }
        QueueSide::Second => {
            "INSERT INTO queue_b (lane, point, flags, value, time) VALUES \
             (?1, ?2, ?3, ?4, ?5), (?6, ?7, ?8, ?9, ?10), (?11, ?12, ?13, ?14, ?15), \
             (?16, ?17, ?18, ?19, ?20), (?21, ?22, ?23, ?24, ?25), (?26, ?27, ?28, ?29, ?30), \
             (?31, ?32, ?33, ?34, ?35), (?36, ?37, ?38, ?39, ?40), (?41, ?42, ?43, ?44, ?45), \
             (?46, ?47, ?48, ?49, ?50), (?51, ?52, ?53, ?54, ?55), (?56, ?57, ?58, ?59, ?60), \
             (?61, ?62, ?63, ?64, ?65), (?66, ?67, ?68, ?69, ?70), (?71, ?72, ?73, ?74, ?75), \
             (?76, ?77, ?78, ?79, ?80)"
        }
    }
}

/// The statement that notes a lane's figures on a side.
pub(crate) fn update_text(side: QueueSide) -> &'static str
    ensures { result.now ≡ lanes_update side }
{
    match side {
        QueueSide::First => "UPDATE lanes SET lost = ?2, raised = ?3 WHERE lane = ?1",
        QueueSide::Second => "UPDATE lanes_b SET lost = ?2, raised = ?3 WHERE lane = ?1",
    }
}
