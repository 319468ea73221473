// The C interface: the layers' functions, the entries, sheets and the window, on numbers and lent bytes. include/quoter.h declares it.
#![tactic(auto)]

ghost use Rattle.std.specs.Prelude.{◌≡◌};
ghost use Rattle.arithmetic.specs.Sqrt.{sqrt};
ghost use Rattle.arithmetic.specs.MulAdd.{mul_add};
ghost use Rattle.arithmetic.specs.Exp.{exp};
ghost use Rattle.arithmetic.specs.Ln.{ln, ln1p};
ghost use Rattle.arithmetic.specs.Basic.{trunc};
ghost use Rattle.special_function.specs.ErrorFunction.{erf_cody, erfc_cody, erfcx_cody};
ghost use Rattle.special_function.specs.Erfinv.{erfinv};
ghost use Rattle.special_function.specs.NormalDistribution.{norm_pdf, norm_cdf, inverse_norm_cdf};
ghost use Rattle.bs_option_price.specs.BsOptionPrice.{normalised_black, negative_abs_log_moneyness};
ghost use Rattle.inverse_gaussian.specs.Curves.{inverse_gaussian_cdf, inverse_gaussian_survival};
ghost use Rattle.explicit_black.specs.Quote.{implied_black_volatility_normalised};
ghost use Rattle.explicit_black.specs.Discount.{implied_black_volatility_discounted};
ghost use Rattle.explicit_black.specs.Price.{black_price};
ghost use Rattle.explicit_black.specs.Replies.{view_reply};
ghost use Rattle.ladder.specs.Ladder.{ladder};
ghost use Rattle.cable_window.specs.Window.{offset_refusal, after_write};
ghost use Rattle.xdr_sheet.specs.Sheet.{size, sheet_reply};
ghost use Rattle.xdr_sheet.specs.Tally.{tally_of};
ghost use Rattle.exports.specs.ToC.{handed_reply, reply_to_c, sheet_reply_to_c, handed_price, price_to_c, handed_ladder, ladder_to_c};
ghost use Rattle.exports.specs.ToC.{handed_size, size_to_c, handed_line, line_to_c};

use cable_window::window::Window;
use explicit_black::quote::Reply;
use explicit_black::terms::OptionTerms;
use inverse_gaussian::curves::Allowance;
use xdr_sheet::tally::Tally;

#[unsafe(no_mangle)]
pub extern "C" fn quoter_sqrt(x: f64) -> f64
    ensures { result ≡ sqrt x }
{
    arithmetic::sqrt::sqrt(x)
}

#[unsafe(no_mangle)]
pub extern "C" fn quoter_mul_add(x: f64, a: f64, b: f64) -> f64
    ensures { result ≡ mul_add x a b }
{
    arithmetic::mul_add::mul_add(x, a, b)
}

#[unsafe(no_mangle)]
pub extern "C" fn quoter_exp(x: f64) -> f64
    ensures { result ≡ exp x }
{
    arithmetic::exp::exp(x)
}

#[unsafe(no_mangle)]
pub extern "C" fn quoter_ln(x: f64) -> f64
    ensures { result ≡ ln x }
{
    arithmetic::ln::ln(x)
}

#[unsafe(no_mangle)]
pub extern "C" fn quoter_ln_1p(u: f64) -> f64
    ensures { result ≡ ln1p u }
{
    arithmetic::ln::ln_1p(u)
}

#[unsafe(no_mangle)]
pub extern "C" fn quoter_trunc(x: f64) -> f64
    ensures { result ≡ trunc x }
{
    arithmetic::basic::trunc(x)
}

#[unsafe(no_mangle)]
pub extern "C" fn quoter_erf_cody(x: f64) -> f64
    ensures { result ≡ erf_cody x }
{
    special_function::error_function::erf_cody(x)
}

#[unsafe(no_mangle)]
pub extern "C" fn quoter_erfc_cody(x: f64) -> f64
    ensures { result ≡ erfc_cody x }
{
    special_function::error_function::erfc_cody(x)
}

#[unsafe(no_mangle)]
pub extern "C" fn quoter_erfcx_cody(x: f64) -> f64
    ensures { result ≡ erfcx_cody x }
{
    special_function::error_function::erfcx_cody(x)
}

#[unsafe(no_mangle)]
pub extern "C" fn quoter_erfinv(e: f64) -> f64
    ensures { result ≡ erfinv e }
{
    special_function::error_function::erfinv(e)
}

#[unsafe(no_mangle)]
pub extern "C" fn quoter_norm_pdf(x2: f64) -> f64
    ensures { result ≡ norm_pdf x2 }
{
    special_function::normal_distribution::norm_pdf(x2)
}

#[unsafe(no_mangle)]
pub extern "C" fn quoter_norm_cdf(z: f64) -> f64
    ensures { result ≡ norm_cdf z }
{
    special_function::normal_distribution::norm_cdf(z)
}

#[unsafe(no_mangle)]
pub extern "C" fn quoter_inverse_norm_cdf(p: f64) -> f64
    ensures { result ≡ inverse_norm_cdf p }
{
    special_function::normal_distribution::inverse_norm_cdf(p)
}

#[unsafe(no_mangle)]
pub extern "C" fn quoter_normalised_black(x: f64, h: f64, t: f64) -> f64
    ensures { result ≡ normalised_black x h t }
{
    bs_option_price::normalised_black(x, h, t)
}

#[unsafe(no_mangle)]
pub extern "C" fn quoter_negative_abs_log_moneyness(f: f64, k: f64) -> f64
    ensures { result ≡ negative_abs_log_moneyness f k }
{
    bs_option_price::negative_abs_log_moneyness(f, k)
}

#[tactic(auto, using(inverse_gaussian::specs::Laws::Counted::first_value, inverse_gaussian::specs::Laws::Counted::first_spent))]
#[unsafe(no_mangle)]
pub extern "C" fn quoter_inverse_gaussian_cdf(x: f64, mu: f64) -> f64
    ensures { result ≡ inverse_gaussian_cdf x mu }
{
    // the one evaluation that it makes is allowed
    let evaluation = inverse_gaussian::curves::inverse_gaussian_cdf(x, mu, &mut Allowance::new(1));
    evaluation.unwrap().value
}

#[tactic(auto, using(inverse_gaussian::specs::Laws::Counted::first_value, inverse_gaussian::specs::Laws::Counted::first_spent))]
#[unsafe(no_mangle)]
pub extern "C" fn quoter_inverse_gaussian_survival(x: f64, mu: f64) -> f64
    ensures { result ≡ inverse_gaussian_survival x mu }
{
    // the one evaluation that it makes is allowed
    let evaluation = inverse_gaussian::curves::inverse_gaussian_survival(
        x,
        mu,
        &mut Allowance::new(1),
    );
    evaluation.unwrap().value
}

// Writes a reply to the caller's places. A refusal writes its count and leaves the two figures as they were.
fn hand(reply: Reply, total: &mut f64, volatility: &mut f64, count: &mut u64) -> u32
    ensures { handed_reply result total.new volatility.new count.new
        ≡ reply_to_c total.old volatility.old (view_reply reply) }
{
    match reply {
        Ok(answer) => {
            *total = answer.total;
            *volatility = answer.volatility;
            *count = answer.count;
            0
        }
        Err(refused) => {
            *count = refused.count;
            refused.refusal.number()
        }
    }
}

#[unsafe(no_mangle)]
pub extern "C" fn quoter_quote(
    side: u32,
    price: f64,
    forward: f64,
    strike: f64,
    time: f64,
    factor: f64,
    total: &mut f64,
    volatility: &mut f64,
    count: &mut u64,
) -> u32
    ensures { handed_reply result total.new volatility.new count.new
        ≡ reply_to_c total.old volatility.old (implied_black_volatility_discounted side price forward strike time factor) }
{
    let terms = OptionTerms {
        side,
        forward,
        strike,
        time,
    };
    let reply = explicit_black::discount::implied_black_volatility_discounted(terms, price, factor);
    hand(reply, total, volatility, count)
}

#[unsafe(no_mangle)]
pub extern "C" fn quoter_normalised(
    log_moneyness: f64,
    price: f64,
    total: &mut f64,
    volatility: &mut f64,
    count: &mut u64,
) -> u32
    ensures { handed_reply result total.new volatility.new count.new
        ≡ reply_to_c total.old volatility.old (implied_black_volatility_normalised log_moneyness price) }
{
    let reply = explicit_black::quote::implied_black_volatility_normalised(log_moneyness, price);
    hand(reply, total, volatility, count)
}

// The price of a volatility. 0: the price is written. Else the number of the refusal, whose count is 0.
#[unsafe(no_mangle)]
pub extern "C" fn quoter_price(
    side: u32,
    volatility: f64,
    forward: f64,
    strike: f64,
    time: f64,
    price: &mut f64,
) -> u32
    ensures { handed_price result price.new
        ≡ price_to_c price.old (black_price side volatility forward strike time) }
{
    let terms = OptionTerms {
        side,
        forward,
        strike,
        time,
    };
    match explicit_black::price::black_price(terms, volatility) {
        Ok(p) => {
            *price = p;
            0
        }
        Err(refused) => refused.refusal.number(),
    }
}

// Quotes that share side, forward and time. 0: their values are written, and how many strike roots were taken. Else the
// number of the refusal, whose count is 0, and nothing is written.
#[unsafe(no_mangle)]
pub extern "C" fn quoter_ladder(
    side: u32,
    forward: f64,
    time: f64,
    strikes: &[f64],
    prices: &[f64],
    totals: &mut [f64],
    volatilities: &mut [f64],
    counts: &mut [u64],
    refusals: &mut [u32],
    roots: &mut u64,
) -> u32
    ensures { handed_ladder result roots.new totals.new volatilities.new counts.new refusals.new
        ≡ ladder_to_c roots.old (ladder side forward time strikes.now prices.now
        totals.old volatilities.old counts.old refusals.old) }
{
    match ladder::ladder::implied_black_volatility_ladder(
        side,
        forward,
        time,
        strikes,
        prices,
        totals,
        volatilities,
        counts,
        refusals,
    ) {
        Ok(taken) => {
            *roots = taken;
            0
        }
        Err(refused) => refused.refusal.number(),
    }
}

// How many quotes a sheet has. 0: their number is written. Else the number of the refusal.
#[unsafe(no_mangle)]
pub extern "C" fn quoter_sheet_size(sheet: &[u8], quotes: &mut u32) -> u32
    ensures { handed_size result quotes.new ≡ size_to_c quotes.old (size sheet.now) }
{
    match xdr_sheet::sheet::quotes_in(sheet) {
        Ok(n) => {
            *quotes = n;
            0
        }
        Err(refused) => refused.refusal.number(),
    }
}

// Returned where an accepted sheet has no such quote; no refusal has this number.
const NO_QUOTE: u32 = 0xffff_ffff;

// The quote of a sheet with `index` quotes before it. Each quote of a refused sheet is refused as the sheet is.
#[unsafe(no_mangle)]
pub extern "C" fn quoter_sheet_quote(
    sheet: &[u8],
    index: u64,
    total: &mut f64,
    volatility: &mut f64,
    count: &mut u64,
) -> u32
    ensures { handed_reply result total.new volatility.new count.new
        ≡ sheet_reply_to_c total.old volatility.old count.old (sheet_reply sheet.now index) }
{
    match xdr_sheet::sheet::reply(sheet, index) {
        Some(reply) => hand(reply, total, volatility, count),
        None => NO_QUOTE,
    }
}

// The line that comes after those of so many finite answers, infinite answers and refusals, put at the start of `text`. Its letter, V, R, T
// or S in ASCII, is returned, its length is written to `count`, and the tallies after it are written; or 0 is returned, and nothing is
// written, where `text` has no room for it.
#[tactic(auto, unfolding(xdr_sheet::specs::Internal::Lines::bytes_placed, xdr_sheet::specs::Internal::Lines::buffer_after))]
#[unsafe(no_mangle)]
pub extern "C" fn quoter_sheet_line(
    sheet: &[u8],
    finite: &mut u32,
    infinite: &mut u32,
    refusals: &mut u32,
    text: &mut [u8],
    count: &mut u64,
) -> u32
    ensures { handed_line result count.new (tally_of finite.new infinite.new refusals.new) text.new
        ≡ line_to_c count.old (tally_of finite.old infinite.old refusals.old) text.old
        sheet.now }
{
    let tally = Tally {
        finite: *finite,
        infinite: *infinite,
        refusals: *refusals,
    };
    let printed = xdr_sheet::printing::next_line(sheet, tally);
    match xdr_sheet::text::place(printed.line.as_slice(), text) {
        Some(bytes) => {
            *count = bytes as u64;
            // after the last line, and after that of a refused sheet, the tally is as before
            let next = printed.next.unwrap_or(tally);
            *finite = next.finite;
            *infinite = next.infinite;
            *refusals = next.refusals;
            printed.kind.letter() as u32
        }
        None => 0,
    }
}

// A word written to a window, which C lends as its 64 bytes. 0, or 14 with the window as it was.
#[unsafe(no_mangle)]
pub extern "C" fn quoter_window_write(window: &mut Window, offset: u32, word: u32) -> u32
    ensures { (result ≡ offset_refusal offset) × (window.new.bytes ≡ after_write window.old.bytes offset word) }
{
    match window.write(offset, word) {
        Ok(()) => 0,
        Err(refusal) => refusal.number(),
    }
}
