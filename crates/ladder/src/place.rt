// One place of a ladder: its quote solved with the roots of forward and time at hand.
ghost use Rattle.std.specs.Prelude.{◌≡◌, ◌<◌};
ghost use Rattle.arithmetic.specs.Sqrt.{sqrt};
ghost use Rattle.explicit_black.specs.Quote.{implied_black_volatility_input};
ghost use Rattle.explicit_black.specs.Replies.{view_reply};
ghost use Rattle.ladder.specs.Ladder.{total_of, volatility_of, count_of, number_of, takes_root, roots_after};

use crate::strike_root::StrikeRoots;
use arithmetic::sqrt::sqrt;
use explicit_black::quote::{Answer, Reply, Roots, bound_tests, reply_from_roots, volatility};
use explicit_black::terms::OptionTerms;

// What the places of a ladder share, and the roots that are taken once, whatever the figures are.
#[derive(Clone, Copy)]
pub struct Shared {
    side: u32,
    forward: f64,
    time: f64,
    root_forward: f64,
    root_time: f64,
    ghost forward_rooted: { root_forward ≡ sqrt forward },
    ghost time_rooted: { root_time ≡ sqrt time },
}

impl Shared {
    pub(crate) fn new(side: u32, forward: f64, time: f64) -> Shared
        ensures { (result.side ≡ side) × (result.forward ≡ forward) × (result.time ≡ time) }
    {
        Shared {
            side,
            forward,
            time,
            root_forward: sqrt(forward),
            root_time: sqrt(time),
        }
    }

    // Tests 1 to 6, and what follows where they leave the price below its bound at a time above zero: only there is the strike's root taken.
    #[tactic(auto, using(crate::proofs::Tests::tests_1_to_6))]
    pub(crate) fn solve_place(self, price: f64, strike: f64, roots: &mut StrikeRoots) -> Reply
        requires { roots.old.taken < 500 }
        ensures { (view_reply result ≡ implied_black_volatility_input self.side price self.forward strike self.time)
            × (roots.new.taken ≡ roots_after (takes_root self.side price self.forward strike self.time) roots.old.taken) }
    {
        let terms = OptionTerms {
            side: self.side,
            forward: self.forward,
            strike,
            time: self.time,
        };
        terms.first_refusal(price)?;
        let intrinsic = terms.intrinsic_value();
        let tested = bound_tests(price, intrinsic, terms.price_bound(), self.time);
        if let Some(total) = tested? {
            return Ok(Answer {
                total,
                volatility: volatility(total, self.time, self.root_time),
                count: 0,
            });
        }
        let figures = Roots {
            forward: self.root_forward,
            strike: roots.take(strike),
        };
        reply_from_roots(terms, price, intrinsic, figures, self.root_time)
    }
}

// What is written at a place.
#[derive(Clone, Copy)]
pub struct Place {
    pub total: f64,
    pub volatility: f64,
    pub count: u64,
    pub number: u32,
}

// Of a refusal the figures are zeros; an answer has the number 0.
impl From<Reply> for Place {
    ghost from_gives = { λ reply place. (place.total ≡ total_of (view_reply reply)) × (place.volatility ≡ volatility_of (view_reply reply))
        × (place.count ≡ count_of (view_reply reply)) × (place.number ≡ number_of (view_reply reply)) };

    fn from(reply: Reply) -> Place {
        match reply {
            Ok(answer) => Place {
                total: answer.total,
                volatility: answer.volatility,
                count: answer.count,
                number: 0,
            },
            Err(refused) => Place {
                total: 0.0,
                volatility: 0.0,
                count: refused.count,
                number: refused.refusal.number(),
            },
        }
    }
}
