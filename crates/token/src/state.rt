// The state, nested by value: what is kept over reset, and the session.
ghost use Rattle.std.specs.Prelude.{◌≡◌};
ghost use Rattle.trust.specs.Trust.{one_point, two_points};
ghost use Rattle.token.specs.State.{start_of, no_token, made_of, reset_of};

use certificate::Certificate;
use days::Day;
use keys::Key;
use names::Name;
use session::Session;
use status::Unfit;
use trust::Points;

#[derive(Clone, Copy)]
pub struct Token {
    pub pin: u8,
    pub active: bool,
    pub puk: u8,
    pub today: Day,
    pub points: Points,
    pub session: Session,
}

impl Token {
    // The tries of the PIN and the uses of the PUK at the start, which are their limits.
    pub const TRIES: u8 = run::TRIES;

    pub const USES: u8 = 10;
    // The longest command, the least reply buffer, the longest name and the longest announced key.
    pub const COMMAND: usize = form::COMMAND;

    pub const ROOM: usize = reply::ROOM;

    pub const NAME: usize = Name::MOST;

    pub const KEY: usize = Key::MOST;

    // The start values, PIN active.
    #[tactic(auto, unfolding(crate::specs::State::start_of))]
    fn start(points: Points, today: Day) -> Self
        ensures { result ≡ start_of points today }
    {
        Token {
            pin: Token::TRIES,
            active: true,
            puk: Token::USES,
            today,
            points,
            session: Session::none(),
        }
    }

    // No token: outside its limits, whatever it is sent.
    #[tactic(auto, unfolding(crate::specs::State::no_token))]
    pub fn none() -> Self
        ensures { result ≡ no_token }
    {
        Token {
            pin: 0,
            active: false,
            puk: 0,
            today: Day(0),
            points: Points::one(Certificate::none()),
            session: Session::none(),
        }
    }

    // A token of these trust points, if they and the day are good.
    #[tactic(auto, unfolding(crate::specs::State::made_of))]
    fn made(points: Points, today: Day) -> Result<Self, Unfit>
        ensures { result ≡ made_of points today }
    {
        if points.fit() && today.fits() {
            Ok(Token::start(points, today))
        } else {
            Err(Unfit)
        }
    }

    // Personalise with one trust point.
    pub fn with_one(newest: Certificate, today: Day) -> Result<Self, Unfit>
        ensures { result ≡ made_of (one_point newest) today }
    {
        Token::made(Points::one(newest), today)
    }

    // Personalise with two, the newest first.
    pub fn with_two(newest: Certificate, previous: Certificate, today: Day) -> Result<Self, Unfit>
        ensures { result ≡ made_of (two_points newest previous) today }
    {
        Token::made(Points::both(newest, previous), today)
    }

    // The session goes, nothing else.
    #[tactic(auto, unfolding(crate::specs::State::reset_of))]
    pub fn reset(mut self) -> Self
        ensures { result ≡ reset_of self }
    {
        self.session = Session::none();
        self
    }
}
