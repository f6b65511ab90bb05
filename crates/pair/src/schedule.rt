// Orders of moves: who moves next, on how large a piece and with how much room.

#[derive(Clone, Copy)]
pub enum Order {
    // the two by chance, with all that there is
    Whole,
    // the two by chance, in single bytes
    Bytes,
    // the server three times of four, in pieces of 3 with rooms of 2
    Server,
    // pieces and rooms by chance too, of no bytes among them
    Chance,
}

// An order and where it stands.
#[derive(Clone, Copy)]
pub struct Schedule {
    order: Order,
    at: u32,
}

#[derive(Clone, Copy)]
pub struct Choice {
    // whether the client moves, or else the server: a flag, as chance gives it, and as `Ends::moves` asks once
    pub client: bool,
    pub piece: usize,
    pub room: usize,
}

impl Schedule {
    pub fn new(order: Order) -> Schedule {
        Schedule { order, at: 1 }
    }

    // The next choice. `at` goes on to the next number of a row that looks like chance. One match over the order: closures that are
    // handed out are refused.
    pub fn choose(&mut self) -> Choice {
        let at = self.at;
        self.at = (at % 65536 * 25173 + 13849) % 65536;
        let chance = Choice {
            client: at / 1024 % 2 == 0,
            piece: (at / 64 % 8) as usize,
            room: (at / 4096 % 8) as usize,
        };
        match self.order {
            Order::Whole => Choice {
                piece: 4096,
                room: 4096,
                ..chance
            },
            Order::Bytes => Choice {
                piece: 1,
                room: 1,
                ..chance
            },
            Order::Server => Choice {
                client: at / 256 % 4 == 0,
                piece: 3,
                room: 2,
            },
            Order::Chance => chance,
        }
    }
}
