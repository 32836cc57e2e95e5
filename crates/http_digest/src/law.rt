//! Laws of headers and nonces.
ghost use Rattle.std.specs.Prelude.{◌≡◌, List, ℕ, Result};
ghost use Rattle.list_laws.specs.Only.{IsOnly};
ghost use Rattle.http_digest.specs.Answers.{AnswerReadsBack};
ghost use Rattle.http_digest.specs.Law.{TellsSecond};
ghost use Rattle.http_digest.specs.Parts.{IsAuthorization, IsAuthFault};
ghost use Rattle.http_digest.specs.declared.authorization.AuthFault.{AuthFault};
ghost use Rattle.http_digest.specs.declared.authorization.Authorization.{Authorization};
ghost use Rattle.http_digest.specs.declared.secret.Secret.{Secret};

/// Every value of a header spells exactly one authorization, or is unreadable.
pub fn a_value_is_one_authorization_or_none()
    ensures { (header : List ℕ) → (answer : Result Authorization AuthFault) × IsOnly (IsAuthorization header) (IsAuthFault header) answer }
{}

/// A nonce of a second tells that second to who has the secret, and no other text tells one.
pub fn a_nonce_tells_its_second()
    ensures { (secret : Secret) → TellsSecond secret }
{}

/// What a client answers to a challenge spells the parts that it was made of.
pub fn an_answer_reads_back()
    ensures { AnswerReadsBack }
{}
