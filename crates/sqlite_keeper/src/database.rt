use desk_io::Text;
use sqlite::{
    Alter, Connection, Error, ErrorCode, File, FileStore, Row, Statement, Transaction, params,
};
use std::alloc::Global;
use std::path::Path;

const MAKE_TABLE: &str =
    "CREATE TABLE IF NOT EXISTS journal(seq INTEGER PRIMARY KEY, line TEXT NOT NULL)";

const INSERT_LINE: &str = "INSERT INTO journal(line) VALUES (?1)";

const FIRST_LINES: &str = "SELECT line FROM journal ORDER BY seq LIMIT ?1";

/// What is asked of a database.
#[derive(Clone, Copy)]
pub(crate) enum Ask<'a> {
    /// The first lines of the journal, at most so many.
    FirstLines(i64),
    /// That all lines are appended in one transaction, or none.
    Append(&'a [Text]),
}

/// An open database. No other program opens it until it is dropped. Then its log is copied into its file, which holds the
/// whole journal from there on.
pub(crate) struct Database {
    connection: Connection<FileStore<File>>,
}

impl Drop for Database {
    fn drop(self) {
        let Database { connection } = self;
        // What was committed stays in the log where it cannot be copied.
        let _ = connection.close();
    }
}

impl Database {
    /// Opens `journal.db` in a folder. The file is made where it is not there.
    pub fn open(rt: &HostRuntime, folder: &str) -> Result<Database, Error> {
        let path = Path::new(folder).join(rt.alloc(), "journal.db")?;
        Ok(Database {
            connection: Connection::open(rt, path.as_str())?,
        })
    }

    /// Does what is asked, and answers the lines that were asked for. An append answers none. The table of the journal is made
    /// where it is not there. At an error the database is closed, so that who has one knows of none.
    pub fn answer(mut self, alloc: Global, ask: Ask) -> Result<(Database, Vec<Text>), Error> {
        let lines = answer(alloc, &mut self.connection, ask)?;
        Ok((self, lines))
    }
}

// Does what is asked. It reaches every statement, so that the store of a database is put in at a single call.
fn answer<S: Alter>(
    alloc: Global,
    connection: &mut Connection<S>,
    ask: Ask,
) -> Result<Vec<Text>, Error> {
    connection.execute_batch(MAKE_TABLE)?;
    match ask {
        Ask::FirstLines(most) => first_lines(alloc, connection, most),
        Ask::Append(lines) => {
            append(connection, lines)?;
            Ok(Vec::new(alloc))
        }
    }
}

fn first_lines<S: Alter>(
    alloc: Global,
    connection: &mut Connection<S>,
    most: i64,
) -> Result<Vec<Text>, Error> {
    let rows = connection.query_all(FIRST_LINES, params![most])?;
    let mut lines = Vec::new(alloc);
    push_lines(rows, &mut lines)?;
    Ok(lines)
}

// The lines of rows, behind those that are there.
fn push_lines(rows: Vec<Row>, lines: &mut Vec<Text>) -> Result<(), Error> {
    for row in rows {
        push_line(&row, lines)?;
    }
    Ok(())
}

// The line of a row, behind those that are there.
fn push_line(row: &Row, lines: &mut Vec<Text>) -> Result<(), Error> {
    lines.push(Text::wrap(row.get(0)?))?;
    Ok(())
}

// Inserts line after line by one prepared statement. Nothing of it stays until the transaction commits.
fn insert<S: Alter>(transaction: &mut Transaction<'_, S>, lines: &[Text]) -> Result<(), Error> {
    let insert_line = transaction.prepare(INSERT_LINE)?;
    insert_each(transaction, &insert_line, lines)
}

// Inserts line after line by a statement.
fn insert_each<S: Alter>(
    transaction: &mut Transaction<'_, S>,
    insert_line: &Statement,
    lines: &[Text],
) -> Result<(), Error> {
    for line in lines {
        transaction.execute_prepared(insert_line, params![line.as_str()])?;
    }
    Ok(())
}

fn append<S: Alter>(connection: &mut Connection<S>, lines: &[Text]) -> Result<(), Error> {
    if !connection.is_autocommit() {
        return Err(Error::SqliteFailure(ErrorCode::TransactionState));
    }
    let mut transaction = connection.transaction();
    insert(&mut transaction, lines)?;
    transaction.commit()
}
