//! The lines of the generated text, one after the other.
ghost use Rattle.std.specs.Prelude.{◌≡◌, ◌<◌, ◌≤◌, ◌++◌, codes, decimal, length, slice_get, Some, IfSome};
ghost use Rattle.std.specs.Iterator.{YieldsFirst};
ghost use Rattle.ob_gen.specs.Generated;
ghost use Rattle.ob_gen.specs.Generated.{lines, lines_left, statement_lines};

use ob_print::Line;

/// The lines that are left.
#[derive(Clone, Copy, Debug, PartialEq, Eq)]
pub(crate) struct Lines {
    /// The last number of the sequence that was taken, or the one before the first.
    number: u64,
    rows: u32,
    /// How many lines are behind.
    passed: u64,
}

// The number that follows in the sequence.
fn next_number(x: u64) -> u64
    ensures { result ≡ Generated.next_number x }
{
    x.wrapping_mul(6_364_136_223_846_793_005)
        .wrapping_add(1_442_695_040_888_963_407)
}

// The digit that a number gives.
fn digit_of(x: u64) -> u8
    ensures { result ≡ Generated.digit_of x }
{
    ((x >> 33) % 10) as u8
}

fn text_line(text: &[u8]) -> Line
    requires { length text.now ≤ 80 }
    ensures { result ≡ text.now }
{
    let mut line = Line::new(b"");
    line.push(text);
    line
}

// A number in decimal, and the end of a statement.
fn number_end(n: u32) -> Line
    ensures text { result ≡ decimal n ++ codes ";\n" }
    ensures short { length result ≤ 12 }
{
    let mut line = Line::new(b"");
    line.push_number(n, b";");
    line.push(b"\n");
    line
}

fn secret_line() -> Line
    ensures { result ≡ Generated.secret_line }
{
    let mut line = text_line(&[b'0'; 64]);
    line.push(b"\n");
    line
}

fn table_line(rows: u32) -> Line
    ensures { result ≡ Generated.table_line rows }
{
    let mut line = text_line(b"CREATE TABLE g (id INT PRIMARY KEY, v INT) CAPACITY ");
    line.push(number_end(rows).as_bytes());
    line
}

fn row_line(id: u32, v: u8) -> Line
    ensures { result ≡ Generated.row_line id v }
{
    let mut line = Line::new(b"INSERT INTO g VALUES (");
    line.push_number(id, b",");
    line.push(b" ");
    line.push_number(v, b")");
    line.push(b";\n");
    line
}

// A line of the statements after the rows, from 0.
fn statement_line(place: u64, rows: u32) -> Line
    requires { place < 12 }
    ensures { slice_get (statement_lines rows) place ≡ Some result }
{
    match place {
        0 => text_line(b"SELECT * FROM g WHERE v = 3;\n"),
        1 => {
            let mut line = text_line(b"SELECT id FROM g WHERE id > ");
            line.push(number_end(rows / 4).as_bytes());
            line
        }
        2 => text_line(b"SELECT v FROM g WHERE v <> 9;\n"),
        3 => text_line(b"SELECT v, COUNT(*) FROM g GROUP BY v;\n"),
        4 => text_line(b"UPDATE g SET v = 10 WHERE v = 1;\n"),
        5 => text_line(b"DELETE FROM g WHERE v = 2;\n"),
        6 => text_line(b"CREATE TABLE h (k INT) CAPACITY 4;\n"),
        7 => text_line(b"INSERT INTO h VALUES (1);\n"),
        8 => text_line(b"SELECT * FROM g JOIN h ON g.id = h.k;\n"),
        9 => text_line(b"SELECT COUNT(*), SUM(v) FROM g;\n"),
        10 => text_line(b"DROP TABLE g;\n"),
        _ => text_line(b"DROP TABLE h;\n"),
    }
}

impl Lines {
    /// All lines, where the sequence begins after `x`, and the table has so many rows.
    pub fn new(x: u64, rows: u32) -> Lines
        ensures { lines_left result.number result.rows result.passed ≡ lines x rows }
    {
        Lines {
            number: x,
            rows,
            passed: 0,
        }
    }

    /// The next line, which has a byte at least, until none is left.
    pub fn next_line(&mut self) -> Option<Line>
        ensures line { YieldsFirst (λ l. lines_left l.number l.rows l.passed)
            self.old result self.new }
        ensures some { IfSome result (λ line. 0 < length line) }
    {
        let passed = self.passed;
        let line = if passed == 0 {
            secret_line()
        } else if passed == 1 {
            table_line(self.rows)
        } else if passed < self.rows as u64 + 2 {
            self.number = next_number(self.number);
            row_line((passed - 1) as u32, digit_of(self.number))
        } else if passed < self.rows as u64 + 14 {
            statement_line(passed - self.rows as u64 - 2, self.rows)
        } else {
            return None;
        };
        self.passed += 1;
        Some(line)
    }
}
