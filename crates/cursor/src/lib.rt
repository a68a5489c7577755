// A cursor over a scan's records (document 01, "Look-ahead"): which cursors are fit, which record each place means, and the cursor after a
// token was handed out or queued. It knows records by their index alone: no list, and nothing of what a record says.
#![tactic(auto)]

ghost use Rattle.std.specs.Prelude.{◌≡◌, ◌+◌, ◌-◌, ◌≤◌, ltb};
ghost use Rattle.cursor.specs.Cursor.{queue_most, is_fit, last_place, ahead, moved_on, must_queue, queued_one, is_full, queued_past, there, queued_for, queueing};

// The most tokens that may be queued.
pub const QUEUE_MOST: usize = 65_535;

// How the scan ended that wrote the list.
#[derive(Clone, Copy)]
pub enum Status {
    // After the last record nothing comes.
    End,
    // The last record comes for ever.
    Stuck,
}

// Where a user of the list stands. After a scan it is 0, 0, the count and the status.
#[derive(Clone, Copy)]
pub struct Cursor {
    // How many tokens `next` has handed out; at Stuck the last is never counted.
    pub taken: usize,
    // How many tokens after those are queued.
    pub queued: usize,
    pub count: usize,
    pub status: Status,
}

impl Cursor {
    // Is the cursor fit for a list with room for so many records?
    pub fn is_fit(self, room: usize) -> bool
        ensures { result ≡ is_fit room self }
    {
        if room < self.count {
            return false;
        }
        if self.count < self.taken {
            return false;
        }
        if QUEUE_MOST < self.queued {
            return false;
        }
        match self.status {
            Status::End => self.queued <= self.count - self.taken,
            Status::Stuck => self.taken < self.count,
        }
    }

    // Where the places stop.
    pub fn last_place(self) -> usize
        ensures { result ≡ last_place self.count self.status }
    {
        match self.status {
            Status::End => self.count,
            Status::Stuck => self.count.saturating_sub(1),
        }
    }

    // The index of the record that comes after n others; the count where none does.
    pub fn ahead(self, n: usize) -> usize
        ensures { result ≡ ahead self n }
    {
        let last = self.last_place();
        if self.taken < last {
            if n < last - self.taken {
                return self.taken + n;
            }
        }
        last
    }

    // The index of the record after the next one; one more than is taken, but for the last place.
    fn ahead_one(self) -> usize
        ensures { result ≡ ahead self 1 }
    {
        let last = self.last_place();
        if self.taken < last {
            return self.taken + 1;
        }
        last
    }

    // The cursor after a token was handed out.
    #[tactic(auto, unfolding(crate::specs::Cursor::moved_on))]
    pub fn moved_on(self) -> Cursor
        ensures { result ≡ moved_on self }
    {
        Cursor {
            taken: self.ahead_one(),
            queued: self.queued.saturating_sub(1),
            ..self
        }
    }

    // Must a token be queued before queued token n is looked for?
    pub fn must_queue(self, n: usize) -> bool
        ensures { result ≡ must_queue self n }
    {
        if self.queued < n {
            return false;
        }
        match self.status {
            Status::End => self.queued < self.count.saturating_sub(self.taken),
            Status::Stuck => 0 < self.count,
        }
    }

    // Must a token be queued where no more may be?
    pub fn is_full(self, n: usize) -> bool
        ensures { result ≡ is_full self n }
    {
        if self.must_queue(n) {
            return self.queued == QUEUE_MOST;
        }
        false
    }

    // The cursor that has queued one more token.
    #[tactic(auto, unfolding(crate::specs::Cursor::queued_one))]
    pub fn queued_one(self) -> Cursor
        requires { self.queued ≤ queue_most }
        ensures { result ≡ queued_one self }
    {
        Cursor {
            queued: self.queued + 1,
            ..self
        }
    }

    // The cursor that has queued one more token, if it must before queued token n is looked for.
    pub fn queued_past(self, n: usize) -> Cursor
        requires { self.queued ≤ queue_most }
        ensures { result ≡ queued_past self n }
    {
        if self.must_queue(n) {
            return self.queued_one();
        }
        self
    }

    // Would a look at place n queue more tokens than may be (document 02, C-1)?
    pub fn overfills(self, n: usize) -> bool
        requires { (self.taken ≤ self.count) × (self.queued ≤ queue_most) }
        ensures { result ≡ ltb queue_most (queued_for self n) }
    {
        if n < QUEUE_MOST {
            return false;
        }
        match self.status {
            Status::End => QUEUE_MOST < self.count - self.taken,
            Status::Stuck => true,
        }
    }

    // How many of n + 1 tokens are there.
    fn there(self, n: usize) -> usize
        requires { (self.taken ≤ self.count) × (there self (n + 1) ≤ queue_most) }
        ensures { result ≡ there self (n + 1) }
    {
        match self.status {
            Status::End => {
                let left = self.count - self.taken;
                if n < left {
                    return n + 1;
                }
                left
            }
            Status::Stuck => n + 1,
        }
    }

    // The cursor that has queued what a look at place n asks for: only what is lacking.
    pub fn queued_for(self, n: usize) -> Cursor
        requires { (self.taken ≤ self.count) × (queued_for self n ≤ queue_most) }
        ensures { result ≡ queueing self (queued_for self n) }
    {
        Cursor {
            queued: self.queued.max(self.there(n)),
            ..self
        }
    }
}
