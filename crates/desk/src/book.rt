// The open book, with the prices that were given for it.
ghost use Rattle.std.specs.Prelude.{◌≡◌, ◌-◌, ◌≤◌, ℕ, List, length, drop, Some, None, Ok, Err};
ghost use Rattle.hours.specs.Opening.{book_open_refusal};
ghost use Rattle.desk.specs.State.{BookState};
ghost use Rattle.desk.specs.Books.{each_in_range, begun, finish_refusal, hour_refusal, price_in_range, price_refusal, book_sums, with_next_hour, with_hourly, with_monthly};
ghost use Rattle.desk.specs.Stretch.{HourAccepted, ReadOn};
ghost use Rattle.desk.specs.Means.{Holds, HoldsAfter, Kept};

use faults::BookFault;
use hours::{Book, HourPrices, MonthPrice, MonthSums, Reading, StandIn, Tariff, Unfinished};
use records::{NextReading, next_reading};

// An open book: its month, its hour prices over its month price, and its readings. The book stands last: it writes to a zone's sums
// by an index, and what stands before them is read once for a stretch of readings.
#[derive(Drop)]
pub struct OpenBook {
    month: u16,
    prices: StandIn<Option<HourPrices>, Option<MonthPrice>>,
    book: Book,
}

// Why a book is not finished, and the book as it was, over an open book what the hours' `Unfinished` is over a book: one generic
// struct of both would be a pair without names.
#[derive(Drop)]
pub(crate) struct Incomplete {
    pub(crate) fault: BookFault,
    pub(crate) open: OpenBook,
}

impl OpenBook {
    // Opens a book for a month, with no prices yet.
    pub(crate) fn open(month: u16, tariff: Tariff) -> Result<OpenBook, BookFault>
        ensures { elim result [ Ok b ↦ (book_open_refusal month tariff.marks tariff.sale ≡ None) × Holds b (begun month tariff.marks tariff.sale) | Err f ↦ book_open_refusal month tariff.marks tariff.sale ≡ Some f ] }
    {
        let book = Book::open(month, tariff)?;
        let prices = StandIn {
            upper: None,
            lower: None,
        };
        Ok(OpenBook {
            month,
            book,
            prices,
        })
    }

    // Sets the month price.
    pub(crate) fn set_month_price(&mut self, price: i32) -> Result<(), BookFault>
        ensures { (s : BookState) → Holds self.old s → HoldsAfter (price_refusal (price_in_range price)) s (with_monthly price s) result self.new }
    {
        let price = MonthPrice::new(self.month, price)?;
        self.prices.lower = Some(price);
        Ok(())
    }

    // Sets the hour prices.
    pub(crate) fn set_hour_prices(&mut self, prices: Vec<i32>) -> Result<(), BookFault>
        ensures { (s : BookState) → Holds self.old s → HoldsAfter (price_refusal (each_in_range prices.items)) s (with_hourly prices.items s) result self.new }
    {
        let prices = HourPrices::new(self.month, prices)?;
        self.prices.upper = Some(prices);
        Ok(())
    }

    // Reads the next hour. The prices are asked at each that can be read: asking leaves them as they are. Inlined for the
    // loop of `read_on`.
    #[inline(always)]
    pub(crate) fn read(&mut self, reading: Reading) -> Result<(), BookFault>
        ensures { (s : BookState) → Holds self.old s → HoldsAfter (hour_refusal reading.import reading.export s) s (with_next_hour reading.import reading.export s) result self.new }
    {
        self.book.read_asking(reading, &mut self.prices)
    }

    // Reads the readings that the bytes begin with, up to another record or a reading that is refused: what follows them.
    pub(crate) fn read_on<'b>(&mut self, bytes: &'b [u8]) -> &'b [u8]
        ensures read { (s : BookState) → Holds self.old s → ReadOn HourAccepted s bytes.now result.now (Holds self.new) }
        ensures within { length result.now ≤ length bytes.now }
        ensures behind { result.now ≡ drop (length bytes.now - length result.now) bytes.now }
    {
        let mut rest = bytes;
        while let Some(next) = next_reading(rest) {
            let NextReading {
                import,
                export,
                rest: after,
            } = next;
            if self.read(Reading { import, export }).is_err() {
                break;
            }
            rest = after;
        }
        rest
    }

    // The sums of a complete book; one with hours missing is handed back.
    pub(crate) fn finish(self) -> Result<MonthSums, Incomplete>
        ensures { (s : BookState) → Holds self s → elim result [ Ok sums ↦ (finish_refusal s ≡ None) × (book_sums s ≡ Some sums) | Err back ↦ Kept s back.fault back.open ] }
    {
        let OpenBook {
            month,
            book,
            prices,
        } = self;
        book.finish().map_err(|unfinished| {
            let Unfinished { fault, book } = unfinished;
            let open = OpenBook {
                month,
                book,
                prices,
            };
            Incomplete { fault, open }
        })
    }
}
