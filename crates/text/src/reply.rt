// A reply as text, and the lines of replies.
ghost use Rattle.text.specs.Printers.{Puts};
ghost use Rattle.text.specs.Texts.{refusal_text, reply_text, reply_line, refused_line};

use crate::bytes::Printer;
use tuple::{Outcome, Refusal, Reply};

impl Printer<'_> {
    // Done, none, inserted, found or held with the fields, or refused and the number, behind a space.
    #[tactic(auto, unfolding(crate::specs::Texts::outcome_text))]
    pub fn put_reply(&mut self, reply: Reply)
        ensures { Puts self.old self.new (reply_text reply) }
    {
        let outcome = reply.outcome;
        let tuple = reply.tuple;
        match outcome {
            Outcome::Done => self.put(b" done"),
            Outcome::None => self.put(b" none"),
            Outcome::Inserted => self.put(b" inserted"),
            Outcome::Found => {
                self.put(b" found");
                self.put_tuple(tuple);
            }
            Outcome::Held => {
                self.put(b" held");
                self.put_tuple(tuple);
            }
            Outcome::Refused(refusal) => {
                self.put(b" ");
                self.put_refusal(refusal);
            }
        }
    }

    // Refused and the number.
    pub fn put_refusal(&mut self, refusal: Refusal)
        ensures { Puts self.old self.new (refusal_text refusal) }
    {
        self.put(b"refused");
        self.put_spaced(u64::from(refusal.number()));
    }

    // A record's number and the reply to its call, as a line.
    pub fn put_line(&mut self, number: u64, reply: Reply)
        ensures { Puts self.old self.new (reply_line number reply) }
    {
        self.put_number(number);
        self.put_reply(reply);
        self.put(b"\n");
    }

    // Refused and the number, as a line.
    pub fn put_refused(&mut self, refusal: Refusal)
        ensures { Puts self.old self.new (refused_line refusal) }
    {
        self.put_refusal(refusal);
        self.put(b"\n");
    }
}
