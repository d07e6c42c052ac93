//! Texts of numbers, dates and times.

ghost use Rattle.std.specs.Prelude.{◌≡◌, ◌%◌, min};
ghost use Rattle.columns.specs.TypeText.{first_number};
ghost use Rattle.columns.specs.PlainTexts.{shown_text};

use crate::arguments::Arguments;
use crate::data_type::DataType;
use crate::sign::Sign;
use crate::typed_value::TypedValue;
use crate::value::decimal::ZerofilledDecimal;
use crate::value::filled::{ZerofilledFixedReal, ZerofilledPlainReal};
use crate::value::finite::Real;
use crate::value::integer::{Integer, Zerofilled};
use crate::value::real::{FixedReal, PlainReal};
use crate::value::scientific::Scientific;
use std::fmt;

/// A number, a date or a time as a column of this type shows it.
#[derive(Clone, Copy, Debug)]
pub struct Plain<'a> {
    pub kind: DataType,
    pub value: TypedValue<'a>,
}

/// Writes the text that the `mysql` client prints, but of a BIT: that is its number here, and the client prints `0x` and
/// its bytes in hexadecimal digits. A number of a type with ZEROFILL has zeros in front, up to at least the display width of
/// an integer, all digits of a DECIMAL, or M of a FLOAT or a DOUBLE (12 or 22 without it). Of a text and of bytes nothing is written. The only
/// error is the writer's.
impl fmt::Display for Plain<'_> {
    ghost output = { λ plain. shown_text plain.kind.numbers plain.kind.sign plain.value };

    fn fmt<W: fmt::Write>(&self, f: &mut fmt::Formatter<W>) -> fmt::Result {
        match self.value {
            TypedValue::Integer(integer) => match (self.kind.sign, integer) {
                (Sign::Zerofill, Integer::Unsigned(number)) => {
                    let width = display_width(self.kind.numbers);
                    let filled = Zerofilled { number, width };
                    write!(f, "{filled}")
                }
                _ => write!(f, "{integer}"),
            },
            TypedValue::Decimal(decimal) => match self.kind.sign {
                Sign::Zerofill => {
                    let filled = ZerofilledDecimal { decimal };
                    write!(f, "{filled}")
                }
                _ => write!(f, "{decimal}"),
            },
            TypedValue::Float(real) => {
                let digits = Scientific::six_digits(real.value);
                self.write_real(digits, real, 12, f)
            }
            TypedValue::Double(real) => {
                let digits = Scientific::of_double(real.value);
                self.write_real(digits, real, 22, f)
            }
            TypedValue::Bits(number) => write!(f, "{number}"),
            TypedValue::Year(year) => write!(f, "{year}"),
            TypedValue::Date(date) => write!(f, "{date}"),
            TypedValue::Time(time) => write!(f, "{time}"),
            TypedValue::Datetime(moment) => write!(f, "{moment}"),
            TypedValue::Timestamp(moment) => write!(f, "{moment}"),
            TypedValue::Text(_) | TypedValue::Bytes(_) => Ok(()),
        }
    }
}

impl Plain<'_> {
    /// Writes a FLOAT or a DOUBLE: in a column with (M,D) rounded from its own digits, otherwise in these; with ZEROFILL with
    /// zeros in front up to M, or to this width.
    fn write_real<W: fmt::Write>(
        &self,
        digits: Scientific,
        real: Real,
        width: u8,
        f: &mut fmt::Formatter<W>,
    ) -> fmt::Result
        requires { digits.number % 10 ≡ 0 → digits.number ≡ 0 }
    {
        let is_filled = self.kind.sign == Sign::Zerofill;
        let Arguments::TwoNumbers(width_of_all, decimals) = self.kind.numbers else {
            let plain = PlainReal { real: digits };
            if is_filled {
                let filled = ZerofilledPlainReal { plain, width };
                return write!(f, "{filled}");
            }
            return write!(f, "{plain}");
        };
        let decimals = decimals.min(30) as u8;
        let fixed = FixedReal {
            real: Scientific::of_double(real.value).rounded(decimals),
            decimals,
        };
        if is_filled {
            let filled = ZerofilledFixedReal {
                fixed,
                width: width_of_all.min(255) as u8,
            };
            return write!(f, "{filled}");
        }
        write!(f, "{fixed}")
    }
}

/// The display width of an integer type, which is at most 255.
fn display_width(numbers: Arguments) -> u8
    ensures { result ≡ min (first_number numbers) 255 }
{
    numbers.first().min(255) as u8
}
